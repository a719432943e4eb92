// What a tray keeps in mind of who names blocks: a word for each slot, no less than the stake of the nodes that name some block there, the own
// node's with it. While it stays short of 60 percent no block of the slot can hold kind 3 by votes, and nobody need be counted.
#![tactic(auto)]

ghost use Rattle.std.specs.Prelude.{◌≡◌, ◌≤◌, ◌<◌, length};
ghost use Rattle.record.specs.Layout.{Long, InWindow, ledger_of};
ghost use Rattle.record.specs.Tabled.{Tabled};
ghost use Rattle.pool.specs.Weighing.{Weighing};
ghost use Rattle.looks.specs.Looks.{is_beside, named_beside, Bounds, is_short, names_block, Noting, Noted};

use kept_certificates::nothing_kept;
use parents::names_some;
use record::{count, is_armed, load_cell, own, stake, total};
use rulebook::{Node, Slot, VoteKind, Weight};
use thresholds::Threshold;

// Whether a look tells that too few name a block in a slot.
pub fn is_short(rec: &[u64], looks: &[u64], s: Slot) -> bool
    requires { Weighing rec.now s.0 }
    ensures { result ≡ is_short (ledger_of rec.now) looks.now s.0 }
{
    let Some(look) = looks.get(s.0) else {
        return false;
    };
    let short = Threshold::SIXTY.missing(Weight(*look), total(rec));
    short.0 != 0
}

// Whether node n names some block in a slot, or is the own node.
fn is_beside(rec: &[u64], s: Slot, n: Node) -> bool
    requires { Weighing rec.now s.0 × (n.0 < (ledger_of rec.now).count) }
    ensures { result ≡ is_beside (ledger_of rec.now) s.0 n.0 }
{
    let me = own(rec);
    let named = names_some(load_cell(rec, s, n));
    (n.0 == me.0) | named
}

// What such nodes weigh in a slot.
fn named_beside(rec: &[u64], s: Slot) -> Weight
    requires { Weighing rec.now s.0 }
    ensures { result.0 ≡ named_beside (ledger_of rec.now) s.0 }
{
    let nodes = count(rec);
    let mut sum: u64 = 0;
    for n in 0..nodes {
        if is_beside(rec, s, Node(n)) {
            let w = stake(rec, Node(n));
            sum += w.0;
        }
    }
    Weight(sum)
}

// A word for the slot before a window. Where that is armed nobody asks, and where a certificate is kept other things answer: the total will do.
fn look_before(rec: &[u64], s: Slot, next: Slot) -> Weight
    requires { Weighing rec.now s.0 × InWindow rec.now next.0 }
    ensures { named_beside (ledger_of rec.now) s.0 ≤ result.0 }
{
    if is_armed(rec, next) | !nothing_kept(rec, s) {
        return total(rec);
    }
    named_beside(rec, s)
}

// The words as a tray begins: those of the slots before windows, 4, 8 and 12, are counted. One more than the total stands for a slot that is not
// counted yet.
pub fn first_looks(rec: &[u64]) -> [u64; 17]
    requires { Long rec.now × Tabled (ledger_of rec.now) }
    ensures { Bounds (ledger_of rec.now) result }
{
    let all = total(rec);
    let t = all.0 + 1;
    let a = look_before(rec, Slot(4), Slot(5));
    let b = look_before(rec, Slot(8), Slot(9));
    let c = look_before(rec, Slot(12), Slot(13));
    [t, t, t, t, a.0, t, t, t, b.0, t, t, t, c.0, t, t, t, t]
}

// Counts a slot that is not counted yet.
pub fn count_look(rec: &[u64], looks: &mut [u64], s: Slot)
    requires { Weighing rec.now s.0 × Bounds (ledger_of rec.now) looks.old }
    ensures { Bounds (ledger_of rec.now) looks.new }
{
    let i = s.0;
    if looks.len() <= i {
        return;
    }
    let all = total(rec);
    if looks[i] <= all.0 {
        return;
    }
    let w = named_beside(rec, s);
    looks[i] = w.0;
}

// Whether a vote of a kind names a block.
#[tactic(auto, unfolding(crate::specs::Looks::names_block))]
pub fn names_block(k: VoteKind) -> bool
    ensures { result ≡ names_block k }
{
    matches!(k, VoteKind::Notar | VoteKind::NotarFallback)
}

// Notes a vote that is about to be stored: the first of its node to name a block adds the stake to its slot's word, up to the total.
pub fn note_vote(rec: &[u64], looks: &mut [u64], s: Slot, n: Node, k: VoteKind)
    requires { Noting rec.now s.0 n.0 looks.old }
    ensures { Noted (ledger_of rec.now) s.0 n.0 k looks.new }
{
    let i = s.0;
    if looks.len() <= i {
        return;
    }
    if !names_block(k) {
        return;
    }
    if names_some(load_cell(rec, s, n)) {
        return;
    }
    let look = looks[i];
    let all = total(rec);
    if all.0 <= look {
        return;
    }
    let w = stake(rec, n);
    looks[i] = look + w.0;
}
