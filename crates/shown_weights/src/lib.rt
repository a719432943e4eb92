// What the votes of a slot weigh, which certificates it holds, whether a block is final by them and what is missing to one. Every
// function takes any words and any slot; only a sound record has weights and certificates.
#![tactic(auto)]

ghost use Rattle.std.specs.Prelude.{◌≡◌};
ghost use Rattle.shown_weights.specs.Weights.{weight_shown, held_shown, certified_shown, missing_shown, short_of, next_for, percent};

use candidates::is_final;
use kinds::slot_ok;
use rulebook::{CertificateKind, Slot, Weight, Who};
use soundness::sound;

// "T is at most 2^48".
const MOST_STAKE: u64 = 281474976710656;

// The weight in a slot of those who count.
pub fn weight_of(rec: &[u64], s: Slot, who: Who) -> Weight
    ensures { result.0 ≡ weight_shown rec.now s.0 who }
{
    if !slot_ok(s) {
        return Weight(0);
    }
    if !sound(rec) {
        return Weight(0);
    }
    pool::weight_of(rec, s, who)
}

// Whether a slot holds a certificate.
pub fn held_in(rec: &[u64], s: Slot, kind: CertificateKind, b: u64) -> bool
    ensures { result ≡ held_shown rec.now kind s.0 b }
{
    if !slot_ok(s) {
        return false;
    }
    if !sound(rec) {
        return false;
    }
    pool::held(rec, kind, s, b)
}

// Whether a block of a slot is final by certificates.
pub fn certified(rec: &[u64], s: Slot, b: u64) -> bool
    ensures { result ≡ certified_shown rec.now s.0 b }
{
    if !slot_ok(s) {
        return false;
    }
    if !sound(rec) {
        return false;
    }
    is_final(rec, s, b)
}

// What is missing in a slot to a certificate by the stored votes.
pub fn missing_in(rec: &[u64], s: Slot, kind: CertificateKind, b: u64) -> Weight
    ensures { result.0 ≡ missing_shown rec.now kind s.0 b }
{
    if !slot_ok(s) {
        return Weight(0);
    }
    if !sound(rec) {
        return Weight(0);
    }
    pool::missing_to(rec, kind, s, b)
}

// What is missing in a slot to a certificate that is not held.
pub fn short_of(rec: &[u64], s: Slot, kind: CertificateKind, b: u64) -> Weight
    ensures { result.0 ≡ short_of rec.now kind s.0 b }
{
    if held_in(rec, s, kind, b) {
        return Weight(0);
    }
    missing_in(rec, s, kind, b)
}

// The next certificate that a block could reach.
pub fn next_for(rec: &[u64], s: Slot, b: u64) -> CertificateKind
    ensures { result ≡ next_for rec.now s.0 b }
{
    if held_in(rec, s, CertificateKind::Notar, b) {
        return CertificateKind::FastFinal;
    }
    if held_in(rec, s, CertificateKind::NotarFallback, b) {
        return CertificateKind::Notar;
    }
    CertificateKind::NotarFallback
}

// A weight's percent of a total, rounded down.
pub fn percent(w: Weight, t: Weight) -> u64
    ensures { result ≡ percent w.0 t.0 }
{
    if t.0 == 0 {
        return 0;
    }
    if w.0 > MOST_STAKE {
        return 0;
    }
    100 * w.0 / t.0
}
