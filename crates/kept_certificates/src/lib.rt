// Certificates from other firms as a record keeps them, by slot and place: the block, and the masks as words.
#![tactic(auto)]

ghost use Rattle.std.specs.Prelude.{◌≡◌, ◌+◌, ◌≤◌, not, length, set, take, drop};
ghost use Rattle.std.proofs.lemmas.List.Edits.{sets};
ghost use Rattle.rulebook.specs.Packets.{joined};
ghost use Rattle.rulebook.specs.Ledger.{none, places, is_kept, certificates_at, put_certificates};
ghost use Rattle.rulebook.specs.Pool.{place_kind};
ghost use Rattle.rulebook.specs.WellFormed.{each_kept, kept_blank};
ghost use Rattle.record.specs.Layout.{mask_words, InSlot, InKept, ledger_of};
ghost use Rattle.kept_certificates.specs.Kept.{place_at, all_none, Lent, Within, Storing};

use record::{MOST_CERTIFICATES, kept_start, mask_words, places_in};
use rulebook::{CertificateKind, Slot};

// The words of a slot's places where masks have one word.
const FEW_WORDS: usize = MOST_CERTIFICATES * 3;

// The kind of one of a slot's places: 1, 2, 4, 5, then 3.
#[tactic(auto, unfolding(rulebook::specs::Pool::place_kind))]
pub fn place_kind(n: usize) -> CertificateKind
    ensures { result ≡ place_kind n }
{
    match n {
        0 => CertificateKind::FastFinal,
        1 => CertificateKind::Notar,
        2 => CertificateKind::Skip,
        3 => CertificateKind::Final,
        _ => CertificateKind::NotarFallback,
    }
}

// The block of the certificate in one of a slot's places; 0 where none is kept, and for kinds that have none.
pub fn block_at(rec: &[u64], s: Slot, n: usize) -> u64
    requires { InKept rec.now s.0 n }
    ensures { result ≡ (place_at (ledger_of rec.now) s.0 n).block }
{
    let i = kept_start(rec, s, n);
    rec[i]
}

// The words of a mask, from its first on.
fn mask_from(rec: &[u64], from: usize) -> &[u64]
    requires { from + mask_words (places (ledger_of rec.now)) ≤ length rec.now }
    ensures { result.now ≡ take (mask_words (places (ledger_of rec.now))) (drop from rec.now) }
{
    let end = from + mask_words(places_in(rec));
    &rec[from..end]
}

// Mask A of the certificate in one of a slot's places, lent from the record.
pub fn mask_a(rec: &[u64], s: Slot, n: usize) -> &[u64]
    requires { InKept rec.now s.0 n }
    ensures { Lent (ledger_of rec.now) (place_at (ledger_of rec.now) s.0 n).maska result.now }
{
    mask_from(rec, kept_start(rec, s, n) + 1)
}

// Mask B, which stands behind it.
pub fn mask_b(rec: &[u64], s: Slot, n: usize) -> &[u64]
    requires { InKept rec.now s.0 n }
    ensures { Lent (ledger_of rec.now) (place_at (ledger_of rec.now) s.0 n).maskb result.now }
{
    mask_from(rec, kept_start(rec, s, n) + 1 + mask_words(places_in(rec)))
}

// Whether all words are 0: they are or-ed together, with no test between them.
fn all_none(words: &[u64]) -> bool
    ensures { result ≡ all_none words.now }
{
    words.iter().fold(0, |all, w| all | *w) == 0
}

// Whether a mask names a signer.
pub fn has_signers(mask: &[u64]) -> bool
    ensures { result ≡ not (none (joined mask.now)) }
{
    !all_none(mask)
}

// Whether one of a slot's places keeps a certificate: one of its masks names a signer.
pub fn is_kept(rec: &[u64], s: Slot, n: usize) -> bool
    requires { InKept rec.now s.0 n }
    ensures { result ≡ is_kept (place_at (ledger_of rec.now) s.0 n) }
{
    let a = mask_a(rec, s, n);
    let b = mask_b(rec, s, n);
    has_signers(a) | has_signers(b)
}

// Whether a slot keeps no certificate: all words of its places are 0. Where masks have one word their number is known, and they are
// read without a loop.
pub fn nothing_kept(rec: &[u64], s: Slot) -> bool
    requires { InSlot rec.now s.0 }
    ensures { result ≡ each_kept (λ i q. kept_blank q) 0 (certificates_at (ledger_of rec.now) s.0) }
{
    let from = kept_start(rec, s, 0);
    let words = mask_words(places_in(rec));
    if words == 1 {
        let few = &rec[from..from + FEW_WORDS];
        return all_none(few);
    }
    let end = from + MOST_CERTIFICATES * (1 + 2 * words);
    let part = &rec[from..end];
    all_none(part)
}

// Copies words into the record from a place on.
fn put_words(rec: &mut [u64], at: usize, words: &[u64])
    requires { Within rec.old at words.now }
    ensures { rec.new ≡ sets rec.old at words.now }
{
    rec[at..at + words.len()].copy_from_slice(words);
}

// Puts a certificate's block and masks into one of a slot's places.
pub fn store_certificate(rec: &mut [u64], s: Slot, n: usize, block: u64, a: &[u64], b: &[u64])
    requires { Storing rec.old s.0 n a.now b.now }
    ensures { ledger_of rec.new ≡ put_certificates (ledger_of rec.old) s.0 (set (certificates_at (ledger_of rec.old) s.0) n (record { block = block; maska = joined a.now; maskb = joined b.now })) }
{
    let i = kept_start(rec, s, n);
    rec[i] = block;
    put_words(rec, i + 1, a);
    put_words(rec, i + 1 + a.len(), b);
}
