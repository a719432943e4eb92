// One certificate of a packet, read and judged on lent stakes and their table.
#![tactic(auto)]

ghost use Rattle.std.specs.Prelude.{◌≡◌};
ghost use Rattle.rulebook.specs.declared.Heading.{Heading};
ghost use Rattle.rulebook.specs.Packets.{certificate_of};
ghost use Rattle.rulebook.specs.Checker.{without_b, bad_signers, judge_weight, judge_kind, one_at};
ghost use Rattle.rulebook.specs.WellFormed.{is_fine};
ghost use Rattle.stakes.specs.Table.{Fit};
ghost use Rattle.certificate_numbers.specs.Told.{Masks};
ghost use Rattle.certificates.specs.Told.{Wide, Heard, Weighty, Keepable, headed, told, told_of, weighed_in};

use certificate_numbers::{MOST_WORDS, read_certificate, words_in};
use kinds::{block_misfits, is_other, kind_in, slot_ok, threshold_of};
use rulebook::{Accepted, CertificateKind, Heading, Refusal, Slot};
use stakes::LentTable;

// Mask B must be 0.
#[tactic(auto, unfolding(rulebook::specs::Checker::without_b))]
fn without_b(k: CertificateKind) -> bool
    ensures { result ≡ without_b k }
{
    !matches!(k, CertificateKind::NotarFallback | CertificateKind::Skip)
}

// 14: a signer beyond the table, in both masks, or mask B used where 0 is due.
fn bad_signers(count: usize, k: CertificateKind, a: &[u64], b: &[u64]) -> bool
    requires { Wide count a.now b.now }
    ensures { (c : Heading) → result ≡ bad_signers count k (certificate_of c a.now b.now) }
{
    let bad = stakes::misplaced(a, b, count);
    let no_b = without_b(k);
    let some_b = stakes::beyond(b, 0);
    bad | (no_b & some_b)
}

// 15 with what is missing, or what is told of the certificate: the signers are weighed once.
fn weigh_in(
    stakes: &[u64],
    t: LentTable,
    k: CertificateKind,
    c: Heading,
    a: &[u64],
    b: &[u64],
    next: usize,
) -> Result<(Accepted, usize), Refusal>
    requires { Heard stakes.now t k c a.now b.now }
    ensures { result ≡ weighed_in stakes.now k (certificate_of c a.now b.now) next }
{
    let w = stakes::weigh_of(stakes, t.total, a, b);
    let needed = threshold_of(k);
    let missing = needed.missing(w.weight, t.total);
    if missing.0 != 0 {
        return Err(Refusal::TooLight(missing));
    }
    Ok((
        Accepted {
            kind: k,
            slot: c.slot,
            block: c.block,
            signers: w.signers,
            weight: w.weight,
        },
        next,
    ))
}

// 4, 3, 5, 14, 15, in this order, once the numbers are read; past 4 the masks have words for every node of the table.
fn judge(
    stakes: &[u64],
    t: LentTable,
    c: Heading,
    a: &[u64],
    b: &[u64],
    next: usize,
) -> Result<(Accepted, usize), Refusal>
    requires { (Fit stakes.now t) × Masks c a.now b.now }
    ensures { result ≡ told_of stakes.now (certificate_of c a.now b.now) next }
{
    let k = kind_in(t.count, c.kind);
    if is_other(k) {
        return Err(Refusal::BadKind);
    }
    if !slot_ok(c.slot) {
        return Err(Refusal::BadSlot);
    }
    if block_misfits(k, c.block) {
        return Err(Refusal::BadBlock);
    }
    if bad_signers(t.count, k, a, b) {
        return Err(Refusal::BadSigners);
    }
    weigh_in(stakes, t, k, c, a, b, next)
}

// The certificate at a place of the packet, read and judged; its masks stand in words of which as many are lent on as its kind says.
pub fn one_at(
    stakes: &[u64],
    t: LentTable,
    packet: &[u8],
    at: usize,
) -> Result<(Accepted, usize), Refusal>
    requires { Fit stakes.now t }
    ensures { result ≡ told stakes.now (one_at stakes.now packet.now at) }
{
    let mut a = [0u64; MOST_WORDS];
    let mut b = [0u64; MOST_WORDS];
    let (c, next) = read_certificate(packet, at, &mut a, &mut b)?;
    let words = words_in(c.kind);
    judge(stakes, t, c, &a[..words], &b[..words], next)
}

// Whether the signers of two masks reach the threshold of a kind.
fn weighs_enough(stakes: &[u64], t: LentTable, k: CertificateKind, a: &[u64], b: &[u64]) -> bool
    requires { Weighty stakes.now t a.now b.now }
    ensures { (c : Heading) → result ≡ is_fine (judge_weight stakes.now k (certificate_of c a.now b.now)) }
{
    let signed = stakes::weigh_of(stakes, t.total, a, b);
    let due = threshold_of(k);
    let lacking = due.missing(signed.weight, t.total);
    lacking.0 == 0
}

// Whether the checker accepts a certificate of a kind that a record keeps in a slot, by its block and masks.
pub fn accepts(
    stakes: &[u64],
    t: LentTable,
    k: CertificateKind,
    s: Slot,
    block: u64,
    a: &[u64],
    b: &[u64],
) -> bool
    requires { Keepable stakes.now t s.0 a.now b.now }
    ensures { result ≡ is_fine (judge_kind stakes.now k (certificate_of (headed s.0 block) a.now b.now)) }
{
    let other = is_other(k);
    let misfits = block_misfits(k, block);
    let masks = bad_signers(t.count, k, a, b);
    if other | (misfits | masks) {
        return false;
    }
    weighs_enough(stakes, t, k, a, b)
}
