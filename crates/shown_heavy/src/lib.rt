// The blocks that a fifth of the stake stands behind, and how many are lighter. The public functions take any words and any slot;
// only a sound record has such blocks.
#![tactic(auto)]

ghost use Rattle.std.specs.Prelude.{◌≡◌};
ghost use Rattle.rulebook.specs.Tools.{lower, lowest};
ghost use Rattle.rulebook.specs.Pool.{names};
ghost use Rattle.record.specs.Layout.{ledger_of};
ghost use Rattle.pool.specs.Weighing.{Weighing};
ghost use Rattle.shown_blocks.specs.Blocks.{lower_named};
ghost use Rattle.shown_heavy.specs.Heavy.{is_heavy, heavy_past, heavy_after, light_name, light_names, light_to, light_blocks, CountingAt};
ghost use Rattle.shown.specs.Shown.{Counting};

use kinds::slot_ok;
use pool::{counted_before, weigh};
use record::{count, load_cell, total};
use rulebook::{Cell, Node, Slot, Who};
use shown::one_if;
use soundness::sound;
use thresholds::Threshold;

// Whether a fifth of the stake stands behind a block, by notar and notar-fallback votes.
fn is_heavy(rec: &[u64], s: Slot, b: u64) -> bool
    requires { Weighing rec.now s.0 }
    ensures { result ≡ is_heavy (ledger_of rec.now) s.0 b }
{
    let total = total(rec);
    let weight = weigh(rec, s, Who::NotarOrFallback(b));
    let missing = Threshold::TWENTY.missing(weight, total);
    missing.0 == 0
}

// The lower of b, where it comes after a block and is heavy, and the best so far; 0 is none. A block that is not lower is not weighed.
fn heavy_next(rec: &[u64], s: Slot, b: u64, after: u64, best: u64) -> u64
    requires { Weighing rec.now s.0 }
    ensures { result ≡ lower (heavy_past (ledger_of rec.now) s.0 after b) b best }
{
    if b <= after {
        return best;
    }
    if (best != 0) & (best <= b) {
        return best;
    }
    if is_heavy(rec, s, b) {
        return b;
    }
    best
}

// The lowest heavy block above another that a cell names, or the best so far.
fn heavy_named(rec: &[u64], s: Slot, c: Cell, after: u64, best: u64) -> u64
    requires { Weighing rec.now s.0 }
    ensures { result ≡ lower_named (heavy_past (ledger_of rec.now) s.0 after) c best }
{
    let third = heavy_next(rec, s, c.fallback3, after, best);
    let second = heavy_next(rec, s, c.fallback2, after, third);
    let first = heavy_next(rec, s, c.fallback1, after, second);
    heavy_next(rec, s, c.notar, after, first)
}

// The lowest heavy block above another that the votes of a slot name.
fn lowest_heavy(rec: &[u64], s: Slot, after: u64) -> u64
    requires { Weighing rec.now s.0 }
    ensures { result ≡ lowest (heavy_past (ledger_of rec.now) s.0 after) (names (ledger_of rec.now) s.0) }
{
    let nodes = count(rec);
    let mut best: u64 = 0;
    for n in 0..nodes {
        best = heavy_named(rec, s, load_cell(rec, s, Node(n)), after, best);
    }
    best
}

// The same, 0 where there is none.
pub fn heavy_after(rec: &[u64], s: Slot, after: u64) -> u64
    ensures { result ≡ heavy_after rec.now s.0 after }
{
    if !slot_ok(s) {
        return 0;
    }
    if !sound(rec) {
        return 0;
    }
    lowest_heavy(rec, s, after)
}

// 1 for a block that was not looked at, that no node before n names, and that is not heavy, else 0.
fn light_name(rec: &[u64], s: Slot, n: Node, looked: u64, b: u64) -> u64
    requires { CountingAt rec.now s.0 n.0 }
    ensures { result ≡ light_name (ledger_of rec.now) s.0 n.0 looked b }
{
    if (b == 0) | (b == looked) {
        return 0;
    }
    if counted_before(rec, s, n, Who::NotarOrFallback(b)) {
        return 0;
    }
    let heavy = is_heavy(rec, s, b);
    one_if(!heavy)
}

// How many blocks a node is the first to name that are not heavy.
fn light_names(rec: &[u64], s: Slot, n: Node, c: Cell) -> u64
    requires { CountingAt rec.now s.0 n.0 }
    ensures { result ≡ light_names (ledger_of rec.now) s.0 n.0 c }
{
    let notar = c.notar;
    let first = light_name(rec, s, n, 0, notar);
    let second = light_name(rec, s, n, notar, c.fallback1);
    let third = light_name(rec, s, n, notar, c.fallback2);
    let fourth = light_name(rec, s, n, notar, c.fallback3);
    first + (second + (third + fourth))
}

// How many blocks the votes of a slot name that are not heavy.
fn count_light(rec: &[u64], s: Slot) -> u64
    requires { Counting rec.now s.0 }
    ensures { result ≡ light_to (ledger_of rec.now) s.0 (ledger_of rec.now).count }
{
    let nodes = count(rec);
    let mut sum: u64 = 0;
    for n in 0..nodes {
        let c = load_cell(rec, s, Node(n));
        sum += light_names(rec, s, Node(n), c);
    }
    sum
}

// The same, 0 where nothing can be weighed.
pub fn light_blocks(rec: &[u64], s: Slot) -> u64
    ensures { result ≡ light_blocks rec.now s.0 }
{
    if !slot_ok(s) {
        return 0;
    }
    if !sound(rec) {
        return 0;
    }
    count_light(rec, s)
}
