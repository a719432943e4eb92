// Heavy names by few counters (Misra and Gries): one pass over names with weights leaves every heavy name among the counters' names.
#![tactic(auto)]

ghost use Rattle.counters.specs.Counting.{Room, Place, Least, Lowerable, Lowered, Added};

// How many counters there are.
pub const COUNTERS: usize = 6;

// A name, 0 where there is none, and what was counted for it and not taken off again.
#[derive(Clone, Copy)]
pub struct Counter {
    pub name: u64,
    pub weight: u64,
}

// Where the name x stands.
fn place_of(counters: &[Counter; COUNTERS], x: u64) -> Option<usize>
    ensures { Place counters.now x result }
{
    counters.iter().position(|c| c.name == x)
}

// A counter that has no more than any other: the first that has nothing, where there is one.
fn least_of(counters: &[Counter; COUNTERS]) -> usize
    ensures { Least counters.now result }
{
    let mut p: usize = 0;
    for (i, c) in counters.iter().enumerate() {
        if c.weight == 0 {
            return i;
        }
        if c.weight < counters[p].weight {
            p = i;
        }
    }
    p
}

// Takes e off every counter.
fn lower_all(counters: &mut [Counter; COUNTERS], e: u64)
    requires { Lowerable counters.old e }
    ensures { Lowered counters.old counters.new e }
{
    if e == 0 {
        return;
    }
    for c in counters.iter_mut() {
        c.weight -= e;
    }
}

// Counts w more for the name x; 0 is no name. A name that has no counter gets the least one, once that one's weight, or w where it
// is less, was taken off w and every counter.
pub fn add(counters: &mut [Counter; COUNTERS], x: u64, w: u64)
    requires { Room counters.old w }
    ensures { Added x w counters.old counters.new }
{
    if x == 0 {
        return;
    }
    if let Some(own) = place_of(counters, x) {
        counters[own].weight += w;
        return;
    }
    let p = least_of(counters);
    let e = w.min(counters[p].weight);
    lower_all(counters, e);
    if e < w {
        counters[p] = Counter {
            name: x,
            weight: w - e,
        };
    }
}
