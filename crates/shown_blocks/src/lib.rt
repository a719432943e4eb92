// The blocks that the votes of a slot name, in the order of their numbers, of any words and any slot.
#![tactic(auto)]

ghost use Rattle.std.specs.Prelude.{◌≡◌, ltb};
ghost use Rattle.rulebook.specs.Tools.{lower, lowest};
ghost use Rattle.shown.specs.Shown.{ledger_in};
ghost use Rattle.shown_blocks.specs.Blocks.{fallbacks, lower_named, block_after, block_from};

use rulebook::{Cell, Node, Slot};
use shown::{cell_of, nodes_of};

// The lower of b, where it comes after a block, and the best so far; 0 is none.
fn comes_next(b: u64, after: u64, best: u64) -> u64
    ensures { result ≡ lower (ltb after b) b best }
{
    if b <= after {
        return best;
    }
    if (best != 0) & (best < b) {
        return best;
    }
    b
}

// The lowest fallback block of a cell above a block, 0 where there is none.
pub fn fallback_after(c: Cell, after: u64) -> u64
    ensures { result ≡ lowest (ltb after) (fallbacks c) }
{
    let third = comes_next(c.fallback3, after, 0);
    let second = comes_next(c.fallback2, after, third);
    comes_next(c.fallback1, after, second)
}

// The lowest block above another that a cell names, or the best so far.
fn named_next(c: Cell, after: u64, best: u64) -> u64
    ensures { result ≡ lower_named (ltb after) c best }
{
    let third = comes_next(c.fallback3, after, best);
    let second = comes_next(c.fallback2, after, third);
    let first = comes_next(c.fallback1, after, second);
    comes_next(c.notar, after, first)
}

// The lowest block above another that the votes of a slot name, 0 where there is none.
pub fn block_after(rec: &[u64], s: Slot, after: u64) -> u64
    ensures { result ≡ block_after (ledger_in rec.now) s.0 after }
{
    let nodes = nodes_of(rec);
    let mut best: u64 = 0;
    for n in 0..nodes {
        best = named_next(cell_of(rec, s, Node(n)), after, best);
    }
    best
}

// The lowest block from a number on that the votes of a slot name, 0 where there is none.
pub fn block_from(rec: &[u64], s: Slot, from: u64) -> u64
    ensures { result ≡ block_from (ledger_in rec.now) s.0 from }
{
    if from == 0 {
        return block_after(rec, s, 0);
    }
    block_after(rec, s, from - 1)
}
