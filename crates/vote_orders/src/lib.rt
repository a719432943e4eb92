// What a list of a slot's notar votes shows of a claimed leader. It is checked in one pass to have each vote at most once, by block and
// node, and each run of equal blocks is summed. However the list came about, what it shows holds.
#![tactic(auto)]

ghost use Rattle.std.specs.Prelude.{◌≡◌, ◌+◌, ◌<◌, ◌^◌};
ghost use Rattle.record.specs.Layout.{ledger_of};
ghost use Rattle.vote_orders.specs.Ordering.{Ordering, Shows, comes_next, next_run};

use record::{count, notar_of, stake};
use rulebook::{Node, Slot, Weight};
use tally::leads;

// The last eleven bits of a word of the list, which tell 2,048 nodes apart, are its node.
pub const NODE_BITS: u64 = 0x7ff;

// What a list shows of a claimed leader: no block leads it, some block does, or neither.
#[derive(Clone, Copy)]
pub enum Shown {
    Unled,
    Led,
    Neither,
}

// Whether node n with the block m comes behind the block b and the nodes below f.
#[tactic(auto, unfolding(crate::specs::Ordering::comes_next))]
fn comes_next(b: u64, f: usize, m: u64, n: usize) -> bool
    ensures { result ≡ comes_next b f m n }
{
    (m != 0) & ((b < m) | ((m == b) & (f <= n)))
}

// The sum of a run of equal blocks with w more: another block begins a run.
#[tactic(auto, unfolding(crate::specs::Ordering::next_run, rulebook::specs::Tools::choose))]
fn next_run(b: u64, run: Weight, m: u64, w: Weight) -> Weight
    requires { run.0 + w.0 < 2 ^ 64 }
    ensures { result.0 ≡ next_run b run.0 m w.0 }
{
    if m == b {
        return Weight(run.0 + w.0);
    }
    w
}

// What the list shows of the leader b of slot s at weight v; any is what all notar votes of the slot weigh. It lists nodes by their
// blocks, and of one block by their numbers, each at most once: so a run is at most its block's weight. Where all that it lists weigh any
// it has every notar vote, and a run is its block's weight.
#[tactic(auto, unfolding(crate::specs::Ordering::Shows))]
pub fn shown_by(rec: &[u64], s: Slot, b: u64, v: Weight, any: Weight, list: &[u64]) -> Shown
    requires { Ordering rec.now s.0 v.0 any.0 }
    ensures { Shows (ledger_of rec.now) s.0 b v.0 result }
{
    let nodes = count(rec);
    let mut rest = any;
    let mut block: u64 = 0;
    let mut from: usize = 0;
    let mut run = Weight(0);
    for word in list {
        let n = (*word & NODE_BITS) as usize;
        if nodes <= n {
            return Shown::Neither;
        }
        let m = notar_of(rec, s, Node(n));
        if !comes_next(block, from, m, n) {
            return Shown::Neither;
        }
        let w = stake(rec, Node(n));
        if rest.0 < w.0 {
            return Shown::Neither;
        }
        rest = Weight(rest.0 - w.0);
        run = next_run(block, run, m, w);
        if leads(m, run, b, v) {
            return Shown::Led;
        }
        block = m;
        from = n + 1;
    }
    if rest.0 != 0 {
        return Shown::Neither;
    }
    Shown::Unled
}
