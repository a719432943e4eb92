// The rules F and G: a final block is told of, and its ancestors with it.
#![tactic(auto)]

ghost use Rattle.std.specs.Prelude.{◌≡◌};
ghost use Rattle.rulebook.specs.Rules.{tell_clash, tell_final, rule_f, rule_g};
ghost use Rattle.record.specs.Layout.{InSlot, ledger_of};
ghost use Rattle.voter.specs.Outbox.{state_in};
ghost use Rattle.voter.specs.Voting.{LiveAt, Onward};
ghost use Rattle.fallbacks.specs.UnderWay.{UnderWayAt};
ghost use Rattle.finality.specs.Telling.{TellingAt, walk_begins};

use candidates::newcomer;
use record::{clash_word, final_block, find_block, mark_clash, set_final};
use rulebook::Slot;
use voter::tell;

// Tells that another block is final in a slot that has a final block, once for that slot.
fn tell_clash(rec: &mut [u64], outbox: &mut [u64], at: usize, s: Slot, b: u64) -> usize
    requires { LiveAt rec.old outbox.old at s.0 }
    ensures { Onward rec.old outbox.old at rec.new outbox.new result (tell_clash (state_in rec.old outbox.old at) s.0 b) }
{
    if clash_word(rec, s) != 0 {
        return at;
    }
    mark_clash(rec, s);
    tell(outbox, at, 8, s, b)
}

// Tells that a block is final in a slot: the slot's final block from now on, or another than it.
fn tell_final(rec: &mut [u64], outbox: &mut [u64], at: usize, s: Slot, b: u64) -> usize
    requires { TellingAt rec.old outbox.old at s.0 b }
    ensures { Onward rec.old outbox.old at rec.new outbox.new result (tell_final (state_in rec.old outbox.old at) s.0 b) }
{
    let f = final_block(rec, s);
    if f == 0 {
        set_final(rec, s, b);
        return tell(outbox, at, 6, s, b);
    }
    if f == b {
        return at;
    }
    tell_clash(rec, outbox, at, s, b)
}

// F. A block other than the slot's final one is final by certificates: tells of it.
pub fn rule_f(rec: &mut [u64], outbox: &mut [u64], at: usize, s: Slot) -> usize
    requires { UnderWayAt rec.old outbox.old at s.0 }
    ensures { Onward rec.old outbox.old at rec.new outbox.new result (rule_f (state_in rec.old outbox.old at) s.0) }
{
    let b = newcomer(rec, s);
    if b == 0 {
        return at;
    }
    tell_final(rec, outbox, at, s, b)
}

// Whether the walk from a slot's final block has something to tell at its first step: that block is kept, and its parent is not
// the final block of the parent's slot.
pub fn walk_begins(rec: &[u64], s: Slot) -> bool
    requires { InSlot rec.now s.0 }
    ensures { result ≡ walk_begins (ledger_of rec.now) s.0 }
{
    let k = find_block(rec, s, final_block(rec, s));
    let p = k.parentslot;
    if (p.0 == 0) | (s.0 <= p.0) {
        return false;
    }
    final_block(rec, p) != k.parent
}

// G. The walk: the parent of a slot's final block is final where that block is kept, and so on down to genesis. Each call is
// for a lower slot.
pub fn rule_g(rec: &mut [u64], outbox: &mut [u64], at: usize, s: Slot) -> usize
    requires { LiveAt rec.old outbox.old at s.0 }
    ensures { Onward rec.old outbox.old at rec.new outbox.new result (rule_g (state_in rec.old outbox.old at) s.0) }
{
    let f = final_block(rec, s);
    if f == 0 {
        return at;
    }
    let k = find_block(rec, s, f);
    let p = k.parentslot;
    if (p.0 == 0) | (s.0 <= p.0) {
        return at;
    }
    let made = tell_final(rec, outbox, at, p, k.parent);
    if final_block(rec, p) != k.parent {
        return made;
    }
    rule_g(rec, outbox, made, p)
}
