// The certificates from other firms that a slot keeps, as people are shown them: kind, block, signers and their weight. Any words, any
// slot and any place are taken; only a sound record keeps certificates.
#![tactic(auto)]

ghost use Rattle.std.specs.Prelude.{◌≡◌};
ghost use Rattle.rulebook.specs.Pool.{place_kind};
ghost use Rattle.record.specs.Layout.{ledger_of};
ghost use Rattle.shown_kept.specs.Kept.{kept_shown, told_of, Telling};

use kept_certificates::{block_at, is_kept, mask_a, mask_b};
use kinds::slot_ok;
use record::{MOST_CERTIFICATES, stakes_of};
use rulebook::{Accepted, CertificateKind, Slot};
use soundness::sound;

// The kind of one of a slot's places: 1, 2, 4, 5, then 3.
#[tactic(auto, unfolding(rulebook::specs::Pool::place_kind))]
fn place_kind(place: usize) -> CertificateKind
    ensures { result ≡ place_kind place }
{
    match place {
        0 => CertificateKind::FastFinal,
        1 => CertificateKind::Notar,
        2 => CertificateKind::Skip,
        3 => CertificateKind::Final,
        _ => CertificateKind::NotarFallback,
    }
}

// What the checker tells of the certificate in one of a slot's places.
fn told_of(rec: &[u64], s: Slot, place: usize) -> Accepted
    requires { Telling rec.now s.0 place }
    ensures { result ≡ told_of (ledger_of rec.now) s.0 place }
{
    let block = block_at(rec, s, place);
    let stakes = stakes_of(rec);
    let a = mask_a(rec, s, place);
    let b = mask_b(rec, s, place);
    let signed = stakes::weigh(stakes, a, b);
    let weight = signed.weight;
    Accepted {
        kind: place_kind(place),
        slot: s,
        block,
        signers: signed.signers,
        weight,
    }
}

// The certificate that one of a slot's places keeps.
pub fn kept_certificate(rec: &[u64], s: Slot, place: usize) -> Option<Accepted>
    ensures { result ≡ kept_shown rec.now s.0 place }
{
    if !slot_ok(s) {
        return None;
    }
    if place >= MOST_CERTIFICATES {
        return None;
    }
    if !sound(rec) {
        return None;
    }
    if !is_kept(rec, s, place) {
        return None;
    }
    Some(told_of(rec, s, place))
}
