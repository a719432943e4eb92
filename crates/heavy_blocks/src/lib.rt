// The blocks of a slot that can have the weights of rules A and D: at most six, found in one pass over the slot's cells.
#![tactic(auto)]

ghost use Rattle.rulebook.specs.declared.Who.TheVariants as who;
ghost use Rattle.record.specs.Layout.{ledger_of};
ghost use Rattle.pool.specs.Weighing.{Weighing};
ghost use Rattle.heavy_blocks.specs.Heavy.{Heavy, Counted, Roomy, Names};

use counters::{COUNTERS, Counter, add};
use record::{count, load_cell, notar_of, stake};
use rulebook::{Cell, Node, Slot};

// A counter that nothing was counted on.
const NO_NAME: Counter = Counter { name: 0, weight: 0 };

// The names that the counters have.
fn names_of(counters: [Counter; COUNTERS]) -> [u64; COUNTERS]
    ensures { Names counters result }
{
    counters.map(|c| c.name)
}

// Six blocks, among them every one for which the notar votes of slot s reach 20; 0 where there are fewer.
pub fn heavy_notar(rec: &[u64], s: Slot) -> [u64; COUNTERS]
    requires { Weighing rec.now s.0 }
    ensures { Heavy (λ m. who.Notar m) 1 (ledger_of rec.now) s.0 result }
{
    let mut counters = [NO_NAME; COUNTERS];
    let nodes = count(rec);
    for n in 0..nodes {
        let m = notar_of(rec, s, Node(n));
        let w = stake(rec, Node(n));
        add(&mut counters, m, w.0);
    }
    names_of(counters)
}

// Counts w more for each block that a cell names.
fn add_cell(counters: &mut [Counter; COUNTERS], c: Cell, w: u64)
    requires { Roomy counters.old w }
    ensures { Counted (λ m. who.NotarOrFallback m) 4 c w counters.old counters.new }
{
    add(counters, c.notar, w);
    add(counters, c.fallback1, w);
    add(counters, c.fallback2, w);
    add(counters, c.fallback3, w);
}

// Six blocks, among them every one for which the notar and notar-fallback votes of slot s reach 60; 0 where there are fewer.
pub fn heavy_names(rec: &[u64], s: Slot) -> [u64; COUNTERS]
    requires { Weighing rec.now s.0 }
    ensures { Heavy (λ m. who.NotarOrFallback m) 3 (ledger_of rec.now) s.0 result }
{
    let mut counters = [NO_NAME; COUNTERS];
    let nodes = count(rec);
    for n in 0..nodes {
        let c = load_cell(rec, s, Node(n));
        let w = stake(rec, Node(n));
        add_cell(&mut counters, c, w.0);
    }
    names_of(counters)
}
