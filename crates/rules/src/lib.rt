// The rules A, B and C.
#![tactic(auto)]

ghost use Rattle.std.specs.Prelude.{◌≡◌, not, ◌&&◌};
ghost use Rattle.rulebook.specs.Weights.{is_first};
ghost use Rattle.rulebook.specs.Ledger.{is_armed};
ghost use Rattle.rulebook.specs.Rules.{rule_a, parent_fits, rule_b, rule_c};
ghost use Rattle.record.specs.Layout.{InWindow, ledger_of};
ghost use Rattle.voter.specs.Outbox.{state_in};
ghost use Rattle.voter.specs.Voting.{Onward};
ghost use Rattle.pool.specs.Weighing.{Carded};
ghost use Rattle.fallbacks.specs.UnderWay.{UnderWayAt, VotingAt};

use own_votes::may_final;
use parents::{ready, some_ready};
use pool::{held, is_first};
use record::{arm, is_armed, load_block, own_cell};
use rulebook::{Block, CertificateKind, Slot, VoteKind};
use voter::{cast_vote, no_initial, tell};

// Rule A's first part: a first slot of a window that is not yet armed.
pub fn may_arm(rec: &[u64], s: Slot) -> bool
    requires { InWindow rec.now s.0 }
    ensures { result ≡ (is_first s.0 && not (is_armed (ledger_of rec.now) s.0)) }
{
    is_first(s) & !is_armed(rec, s)
}

// A. First slot, some parent ready, not yet armed: arms the window and tells of it.
pub fn rule_a(rec: &mut [u64], outbox: &mut [u64], at: usize, s: Slot) -> usize
    requires { UnderWayAt rec.old outbox.old at s.0 }
    ensures { Onward rec.old outbox.old at rec.new outbox.new result (rule_a (state_in rec.old outbox.old at) s.0) }
{
    if may_arm(rec, s) {
        if some_ready(rec, s) {
            arm(rec, s);
            return tell(outbox, at, 7, s, 0);
        }
    }
    at
}

// Whether the first block's parent lets rule B cast.
fn parent_fits(rec: &[u64], s: Slot, b: Block) -> bool
    requires { Carded rec.now s.0 }
    ensures { result ≡ parent_fits (ledger_of rec.now) s.0 (is_first s.0) b }
{
    let p = b.parentslot;
    if is_first(s) {
        return ready(rec, s, p, b.parent);
    }
    let before = own_cell(rec, Slot(s.0 - 1));
    (p.0 == s.0 - 1) & (before.notar == b.parent)
}

// B. No own initial vote, and the first block announced has a parent that fits: casts notar for it.
pub fn rule_b(rec: &mut [u64], outbox: &mut [u64], at: usize, s: Slot) -> usize
    requires { VotingAt rec.old outbox.old at s.0 }
    ensures { Onward rec.old outbox.old at rec.new outbox.new result (rule_b (state_in rec.old outbox.old at) s.0) }
{
    let c = own_cell(rec, s);
    let b = load_block(rec, s, 0);
    if no_initial(c) & (b.number != 0) {
        if parent_fits(rec, s, b) {
            return cast_vote(rec, outbox, at, s, VoteKind::Notar, b.number);
        }
    }
    at
}

// C. Own initial vote notar b, kind 2 held for b, no own fallback, no own final: casts final.
pub fn rule_c(rec: &mut [u64], outbox: &mut [u64], at: usize, s: Slot) -> usize
    requires { VotingAt rec.old outbox.old at s.0 }
    ensures { Onward rec.old outbox.old at rec.new outbox.new result (rule_c (state_in rec.old outbox.old at) s.0) }
{
    let c = own_cell(rec, s);
    if may_final(c) {
        if held(rec, CertificateKind::Notar, s, c.notar) {
            return cast_vote(rec, outbox, at, s, VoteKind::Final, 0);
        }
    }
    at
}
