// Whether a vote can stir another slot than its own, in a record in which no rule applied before it: the rules A, B and D look at what lower
// slots hold, and one vote more is rarely one certificate more.
#![tactic(auto)]

ghost use Rattle.std.specs.Prelude.{◌≡◌, false, ◌≤◌};
ghost use Rattle.rulebook.specs.Weights.{last_slot};
ghost use Rattle.rulebook.specs.Rules.{fallback_block};
ghost use Rattle.record.specs.Layout.{ledger_of};
ghost use Rattle.candidates.specs.Judging.{Judging};
ghost use Rattle.pool.specs.Weighing.{Carded};
ghost use Rattle.looks.specs.Looks.{Bounds};
ghost use Rattle.stirring.specs.Stirring.{opens_block, opens, Unwaiting, Unawaited, Unstirred, Standing};

use looks::{count_look, is_short, names_block};
use parents::leader_held;
use pool::{held, is_first};
use record::{is_armed, load_block, load_card, own_cell, total};
use rulebook::{CertificateKind, Slot, VoteKind, Weight};
use thresholds::Threshold;
use voter::no_initial;

// Whether D may find a block, as far as the card tells: not where no block has 20 percent of notar votes, nor where the own vote's leads alone.
fn may_fall(rec: &[u64], t: Slot) -> bool
    requires { Judging rec.now t.0 }
    ensures { result ≡ false → fallback_block (ledger_of rec.now) t.0 ≡ 0 }
{
    let card = load_card(rec, t);
    let all = total(rec);
    let most = card.weight;
    let short = Threshold::TWENTY.missing(most, all);
    if short.0 != 0 {
        return false;
    }
    let c = own_cell(rec, t);
    if c.notar != card.leader {
        return true;
    }
    let rest = Threshold::FORTY.missing(Weight(all.0 - most.0), all);
    rest.0 == 0
}

// Whether a slot waits for what lower slots hold.
fn is_waiting(rec: &[u64], t: Slot) -> bool
    requires { Judging rec.now t.0 }
    ensures { result ≡ false → Unwaiting (ledger_of rec.now) t.0 }
{
    let c = own_cell(rec, t);
    if is_first(t) {
        let b = load_block(rec, t, 0);
        return !is_armed(rec, t) | (no_initial(c) & (b.number != 0));
    }
    if no_initial(c) {
        return false;
    }
    may_fall(rec, t)
}

// Whether some slot behind another waits.
fn is_awaited(rec: &[u64], s: Slot) -> bool
    requires { Standing rec.now × (s.0 ≤ last_slot) }
    ensures { result ≡ false → Unawaited (ledger_of rec.now) s.0 }
{
    (s.0 + 1..17).any(|t| is_waiting(rec, Slot(t)))
}

// Whether kind 3 for a block may be reached by one vote more.
fn opens_block(rec: &[u64], looks: &[u64], s: Slot, b: u64) -> bool
    requires { Carded rec.now s.0 }
    ensures { result ≡ opens_block (ledger_of rec.now) looks.now s.0 b }
{
    if is_short(rec, looks, s) {
        return false;
    }
    let card = load_card(rec, s);
    if card.leader != b {
        return true;
    }
    !leader_held(rec, s)
}

// Whether a vote may bring its slot a certificate that parents are asked for. Asked before it is stored, and once it is noted.
#[tactic(auto, unfolding(crate::specs::Stirring::opens))]
pub fn opens(rec: &[u64], looks: &[u64], s: Slot, k: VoteKind, b: u64) -> bool
    requires { Carded rec.now s.0 }
    ensures { result ≡ opens (ledger_of rec.now) looks.now s.0 k b }
{
    match k {
        VoteKind::Notar | VoteKind::NotarFallback => opens_block(rec, looks, s, b),
        VoteKind::Skip | VoteKind::SkipFallback => !held(rec, CertificateKind::Skip, s, 0),
        VoteKind::Final | VoteKind::Other => false,
    }
}

// Whether a vote that may, and is stored, stirs a later slot: one waits, and the slot may hold that certificate now.
pub fn stirs(rec: &[u64], looks: &mut [u64], s: Slot, k: VoteKind) -> bool
    requires { Standing rec.now × Carded rec.now s.0 × Bounds (ledger_of rec.now) looks.old }
    ensures { Bounds (ledger_of rec.now) looks.new × (result ≡ false → Unstirred (ledger_of rec.now) s.0 k) }
{
    if !is_awaited(rec, s) {
        return false;
    }
    if names_block(k) {
        count_look(rec, looks, s);
        return !is_short(rec, looks, s);
    }
    held(rec, CertificateKind::Skip, s, 0)
}
