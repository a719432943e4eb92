// What a node's record shows to people, read and nothing printed: the node, and what is kept of a slot. Every function takes any
// words, any slot and any place: words that are not as many as a record's show nothing.
#![tactic(auto)]

ghost use Rattle.std.specs.Prelude.{◌≡◌, not, get_or};
ghost use Rattle.rulebook.specs.Tools.{part};
ghost use Rattle.rulebook.specs.Weights.{is_large};
ghost use Rattle.rulebook.specs.Ledger.{none, no_block, row_at, cell_at, blocks_at};
ghost use Rattle.rulebook.specs.WellFormed.{cell_blank};
ghost use Rattle.shown.specs.Shown.{ledger_in, watcher_shown, armed_shown, leads_at, leads_to, final_child, has_votes, has_certificates, touched};

use kept_certificates::nothing_kept;
use kinds::slot_ok;
use record::{
    LAST_SLOT, MOST_BLOCKS, clash_word, count, final_block, genesis, is_armed, is_long, is_watcher,
    load_block, load_cell, own, places_in, timed_out, total,
};
use rulebook::{Block, Cell, Node, Slot, Weight};

const NOTHING: Cell = Cell {
    notar: 0,
    skip: 0,
    fallback1: 0,
    fallback2: 0,
    fallback3: 0,
    skipfallback: 0,
    finalvote: 0,
};

// Kinds 1 to 5 are of rings of so many nodes at most; larger ones have their own.
const SMALL_RING: usize = 64;

// ---- the node

// How many nodes there are.
pub fn nodes_of(rec: &[u64]) -> usize
    ensures { result ≡ (ledger_in rec.now).count }
{
    if !is_long(rec) {
        return 0;
    }
    count(rec)
}

// Whether the ring is a large one, of which people are shown sums and not each vote.
pub fn is_large(rec: &[u64]) -> bool
    ensures { result ≡ is_large (ledger_in rec.now).count }
{
    nodes_of(rec) > SMALL_RING
}

// The own number.
pub fn own_of(rec: &[u64]) -> Node
    ensures { result.0 ≡ (ledger_in rec.now).own }
{
    if !is_long(rec) {
        return Node(0);
    }
    own(rec)
}

// Whether the node has no own number.
pub fn watches(rec: &[u64]) -> bool
    ensures { result ≡ watcher_shown rec.now }
{
    if !is_long(rec) {
        return false;
    }
    is_watcher(rec)
}

// The total stake.
pub fn total_of(rec: &[u64]) -> Weight
    ensures { result.0 ≡ (ledger_in rec.now).total }
{
    if !is_long(rec) {
        return Weight(0);
    }
    total(rec)
}

// Genesis's number.
pub fn genesis_of(rec: &[u64]) -> u64
    ensures { result ≡ (ledger_in rec.now).genesis }
{
    if !is_long(rec) {
        return 0;
    }
    genesis(rec)
}

// Whether a slot's window is armed.
pub fn armed_in(rec: &[u64], s: Slot) -> bool
    ensures { result ≡ armed_shown rec.now s.0 }
{
    if !slot_ok(s) {
        return false;
    }
    if !is_long(rec) {
        return false;
    }
    is_armed(rec, s)
}

// ---- a slot

// What is kept of a node in a slot.
pub fn cell_of(rec: &[u64], s: Slot, n: Node) -> Cell
    ensures { result ≡ cell_at (ledger_in rec.now) s.0 n.0 }
{
    if !is_long(rec) {
        return NOTHING;
    }
    if s.0 > LAST_SLOT {
        return NOTHING;
    }
    if n.0 >= places_in(rec) {
        return NOTHING;
    }
    load_cell(rec, s, n)
}

// The block kept in place n of a slot, with its parent.
pub fn kept_of(rec: &[u64], s: Slot, n: usize) -> Block
    ensures { result ≡ get_or (blocks_at (ledger_in rec.now) s.0) n no_block }
{
    let none = Block {
        number: 0,
        parentslot: Slot(0),
        parent: 0,
    };
    if !is_long(rec) {
        return none;
    }
    if s.0 > LAST_SLOT {
        return none;
    }
    if n >= MOST_BLOCKS {
        return none;
    }
    load_block(rec, s, n)
}

// The block reported final in a slot, 0 where there is none.
pub fn final_of(rec: &[u64], s: Slot) -> u64
    ensures { result ≡ (row_at (ledger_in rec.now) s.0).final }
{
    if !is_long(rec) {
        return 0;
    }
    if s.0 > LAST_SLOT {
        return 0;
    }
    final_block(rec, s)
}

// Whether a slot's timeout was taken.
pub fn timed_out_in(rec: &[u64], s: Slot) -> bool
    ensures { result ≡ not (none (row_at (ledger_in rec.now) s.0).timed_out) }
{
    if !is_long(rec) {
        return false;
    }
    if s.0 > LAST_SLOT {
        return false;
    }
    timed_out(rec, s)
}

// Whether another final block was reported in a slot.
pub fn clash_in(rec: &[u64], s: Slot) -> bool
    ensures { result ≡ not (none (row_at (ledger_in rec.now) s.0).clash) }
{
    if !is_long(rec) {
        return false;
    }
    if s.0 > LAST_SLOT {
        return false;
    }
    clash_word(rec, s) != 0
}

// ---- the slot through which a block is final

// Whether the block in one of slot t's places is its final block and has block b of slot s as its parent.
fn leads_at(rec: &[u64], t: Slot, place: usize, s: Slot, b: u64) -> bool
    ensures { result ≡ leads_at (ledger_in rec.now) s.0 b t.0 place }
{
    let k = kept_of(rec, t, place);
    let f = final_of(rec, t);
    let p = k.parentslot;
    (k.number != 0) & ((k.number == f) & ((p.0 == s.0) & (k.parent == b)))
}

// Whether the final block of slot t is kept there with block b of slot s as its parent.
fn leads_to(rec: &[u64], t: Slot, s: Slot, b: u64) -> bool
    ensures { result ≡ leads_to (ledger_in rec.now) s.0 b t.0 }
{
    let first = leads_at(rec, t, 0, s, b);
    let second = leads_at(rec, t, 1, s, b);
    let third = leads_at(rec, t, 2, s, b);
    let fourth = leads_at(rec, t, 3, s, b);
    ((first | second) | third) | fourth
}

// The lowest slot whose final block is kept there with block b of slot s as its parent, slot 0 where there is none.
pub fn final_child(rec: &[u64], s: Slot, b: u64) -> Slot
    ensures { result.0 ≡ final_child (ledger_in rec.now) s.0 b }
{
    for t in 1..17 {
        if leads_to(rec, Slot(t), s, b) {
            return Slot(t);
        }
    }
    Slot(0)
}

// ---- whether there is something to show

// Nothing is kept of a node.
pub fn is_blank(c: Cell) -> bool
    ensures { result ≡ cell_blank c }
{
    let initial = (c.notar == 0) & (c.skip == 0);
    let fallbacks = (c.fallback1 == 0) & ((c.fallback2 == 0) & (c.fallback3 == 0));
    initial & (fallbacks & ((c.skipfallback == 0) & (c.finalvote == 0)))
}

// Whether some node's votes in a slot are stored.
fn has_votes(rec: &[u64], s: Slot) -> bool
    ensures { result ≡ has_votes (ledger_in rec.now) s.0 }
{
    let nodes = nodes_of(rec);
    let mut some = false;
    for n in 0..nodes {
        let blank = is_blank(cell_of(rec, s, Node(n)));
        some = some | !blank;
    }
    some
}

// Whether a certificate is kept in a slot.
pub fn has_certificates(rec: &[u64], s: Slot) -> bool
    ensures { result ≡ has_certificates (ledger_in rec.now) s.0 }
{
    if !is_long(rec) {
        return false;
    }
    if s.0 > LAST_SLOT {
        return false;
    }
    !nothing_kept(rec, s)
}

// Whether anything is kept of a slot.
pub fn touched(rec: &[u64], s: Slot) -> bool
    ensures { result ≡ touched (ledger_in rec.now) s.0 }
{
    let b = kept_of(rec, s, 0);
    let marked = timed_out_in(rec, s) | (final_of(rec, s) != 0);
    let voted = has_votes(rec, s);
    let certified = has_certificates(rec, s);
    (b.number != 0) | (marked | (voted | certified))
}

// ---- sums

// 1 for what is there, else 0.
pub fn one_if(there: bool) -> u64
    ensures { result ≡ part there 1 }
{
    if there { 1 } else { 0 }
}
