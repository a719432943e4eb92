// The first of the rules A to G that applies, and settling: again from slot 1 until none applies. A dormant slot is passed over; what a tray
// keeps in mind of who names blocks tells of some that they are.
#![tactic(auto)]

ghost use Rattle.rulebook.specs.Rules.{rule_g};
ghost use Rattle.rulebook.specs.Run.{rule_at, first_rule, scan, run};
ghost use Rattle.record.specs.Layout.{ledger_of};
ghost use Rattle.looks.specs.Looks.{Bounds};
ghost use Rattle.voter.specs.Outbox.{state_in, records_in};
ghost use Rattle.voter.specs.Voting.{Onward};
ghost use Rattle.fallbacks.specs.UnderWay.{UnderWay, UnderWayAt};
ghost use Rattle.stirring.specs.Touched.{Touched};
ghost use Rattle.run.specs.Tried.{TriedBelow};

use dormancy::{first_asked, is_dormant};
use fallbacks::{rule_d, rule_e};
use finality::{rule_f, rule_g, walk_begins};
use record::is_watcher;
use rulebook::Slot;
use rules::{rule_a, rule_b, rule_c};

// G, tried after every slot below: a walk that has nothing to tell at its first step would go on from a slot below, where it had
// nothing to tell.
fn walk(rec: &mut [u64], outbox: &mut [u64], at: usize, s: Slot) -> usize
    requires { TriedBelow rec.old outbox.old at s.0 }
    ensures { Onward rec.old outbox.old at rec.new outbox.new result (rule_g (state_in rec.old outbox.old at) s.0) }
{
    if !walk_begins(rec, s) {
        return at;
    }
    rule_g(rec, outbox, at, s)
}

// Rules A to G by their place in the order, from 0. A watcher runs only A, F and G.
fn rule(rec: &mut [u64], outbox: &mut [u64], at: usize, s: Slot, r: usize) -> usize
    requires { TriedBelow rec.old outbox.old at s.0 }
    ensures { Onward rec.old outbox.old at rec.new outbox.new result (rule_at r (state_in rec.old outbox.old at) s.0) }
{
    let watches = is_watcher(rec);
    if watches & ((1 <= r) & (r <= 4)) {
        return at;
    }
    match r {
        0 => rule_a(rec, outbox, at, s),
        1 => rule_b(rec, outbox, at, s),
        2 => rule_c(rec, outbox, at, s),
        3 => rule_d(rec, outbox, at, s),
        4 => rule_e(rec, outbox, at, s),
        5 => rule_f(rec, outbox, at, s),
        6 => walk(rec, outbox, at, s),
        _ => at,
    }
}

// The first rule that applies, slots ascending and rules A to G within a slot. In a dormant slot none is tried.
fn scan_slots(rec: &mut [u64], outbox: &mut [u64], at: usize, looks: &[u64]) -> usize
    requires { UnderWay rec.old outbox.old at × Bounds (ledger_of rec.old) looks.now }
    ensures { Onward rec.old outbox.old at rec.new outbox.new result (scan (state_in rec.old outbox.old at)) }
{
    let mut made = at;
    'scan: for s in 1..17 {
        if is_dormant(rec, looks, Slot(s)) {
            continue;
        }
        for r in first_asked(rec, looks, Slot(s))..7 {
            made = rule(rec, outbox, made, Slot(s), r);
            if made != at {
                break 'scan;
            }
        }
    }
    made
}

// Again from slot 1 until no rule applies, with what a tray keeps in mind.
pub fn settle_with(rec: &mut [u64], outbox: &mut [u64], at: usize, looks: &[u64]) -> usize
    requires { UnderWay rec.old outbox.old at × Bounds (ledger_of rec.old) looks.now }
    ensures { Onward rec.old outbox.old at rec.new outbox.new result (run (state_in rec.old outbox.old at)) }
{
    let mut made = at;
    loop {
        let next = scan_slots(rec, outbox, made, looks);
        if next == made {
            break;
        }
        made = next;
    }
    made
}

// Likewise with nothing kept in mind.
pub fn settle(rec: &mut [u64], outbox: &mut [u64], at: usize) -> usize
    requires { UnderWay rec.old outbox.old at }
    ensures { Onward rec.old outbox.old at rec.new outbox.new result (run (state_in rec.old outbox.old at)) }
{
    let none = [0u64; 0];
    settle_with(rec, outbox, at, &none)
}

// The first of rules C to F that applies in one slot.
fn ask_slot(rec: &mut [u64], outbox: &mut [u64], at: usize, s: Slot) -> usize
    requires { TriedBelow rec.old outbox.old at s.0 }
    ensures { Onward rec.old outbox.old at rec.new outbox.new result (first_rule 4 2 (state_in rec.old outbox.old at) s.0) }
{
    let mut made = at;
    for r in 2..6 {
        made = rule(rec, outbox, made, s, r);
        if made != at {
            return made;
        }
    }
    made
}

// Again from slot 1 until no rule applies, behind a vote that was stored in slot s of a record in which none applied. Where it stirs no later
// slot, rules C to F of its own are asked first: no other can apply.
pub fn settle_behind(
    rec: &mut [u64],
    outbox: &mut [u64],
    at: usize,
    looks: &[u64],
    s: Slot,
    stirs: bool,
) -> usize
    requires { UnderWayAt rec.old outbox.old at s.0 × Bounds (ledger_of rec.old) looks.now × Touched (ledger_of rec.old) (records_in outbox.old at) s.0 stirs }
    ensures { Onward rec.old outbox.old at rec.new outbox.new result (run (state_in rec.old outbox.old at)) }
{
    if stirs {
        return settle_with(rec, outbox, at, looks);
    }
    let made = ask_slot(rec, outbox, at, s);
    if made == at {
        return at;
    }
    settle_with(rec, outbox, made, looks)
}
