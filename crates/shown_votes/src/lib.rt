// The votes that are stored in a slot: how many, whose, and the next node that has some. The public functions take any words and
// any slot; only a sound record has weights.
#![tactic(auto)]

ghost use Rattle.std.specs.Prelude.{◌≡◌};
ghost use Rattle.rulebook.specs.Tools.{part};
ghost use Rattle.record.specs.Layout.{ledger_of};
ghost use Rattle.shown.specs.Shown.{ledger_in, Counting};
ghost use Rattle.shown_votes.specs.Votes.{voter_from, votes_in, stored_in, stored_shown};

use kinds::slot_ok;
use record::{count, load_cell, stake};
use rulebook::{Cell, Node, Slot, Weight};
use shown::{cell_of, is_blank, nodes_of, one_if};
use soundness::sound;

// What is stored in a slot: so many votes, by so many nodes of such a weight.
#[derive(Clone, Copy)]
pub struct Stored {
    pub votes: u64,
    pub nodes: u64,
    pub weight: Weight,
}

// How many votes a cell holds.
fn votes_in(c: Cell) -> u64
    ensures { result ≡ votes_in c }
{
    let initial = one_if(c.notar != 0) + one_if(c.skip != 0);
    let third = one_if(c.fallback3 != 0);
    let fallbacks = one_if(c.fallback1 != 0) + (one_if(c.fallback2 != 0) + third);
    let last = one_if(c.skipfallback != 0) + one_if(c.finalvote != 0);
    initial + (fallbacks + last)
}

// A stake where it counts, else none.
fn weight_if(there: bool, w: Weight) -> Weight
    ensures { result.0 ≡ part there w.0 }
{
    if there { w } else { Weight(0) }
}

// What is stored in a slot, node by node.
fn count_stored(rec: &[u64], s: Slot) -> Stored
    requires { Counting rec.now s.0 }
    ensures { result ≡ stored_in (ledger_of rec.now) s.0 }
{
    let all = count(rec);
    let mut votes: u64 = 0;
    let mut nodes: u64 = 0;
    let mut weight: u64 = 0;
    for n in 0..all {
        let c = load_cell(rec, s, Node(n));
        let voted = !is_blank(c);
        let w = stake(rec, Node(n));
        votes += votes_in(c);
        nodes += one_if(voted);
        let counted = weight_if(voted, w);
        weight += counted.0;
    }
    Stored {
        votes,
        nodes,
        weight: Weight(weight),
    }
}

// The same, nothing where nothing can be weighed.
pub fn stored_in(rec: &[u64], s: Slot) -> Stored
    ensures { result ≡ stored_shown rec.now s.0 }
{
    let nothing = Stored {
        votes: 0,
        nodes: 0,
        weight: Weight(0),
    };
    if !slot_ok(s) {
        return nothing;
    }
    if !sound(rec) {
        return nothing;
    }
    count_stored(rec, s)
}

// The first node from one on with a vote in a slot; no node's number where there is none.
pub fn voter_from(rec: &[u64], s: Slot, from: Node) -> Node
    ensures { result.0 ≡ voter_from (ledger_in rec.now) s.0 from.0 }
{
    let nodes = nodes_of(rec);
    for n in from.0..nodes {
        if !is_blank(cell_of(rec, s, Node(n))) {
            return Node(n);
        }
    }
    Node(from.0.max(nodes))
}
