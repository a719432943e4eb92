// Storing a vote: the node's cell and the slot's tally card together. The one way in for own and outside votes.
#![tactic(auto)]

ghost use Rattle.std.specs.Prelude.{◌≡◌};
ghost use Rattle.rulebook.specs.Cards.{change_of};
ghost use Rattle.rulebook.specs.Votes.{store_vote};
ghost use Rattle.record.specs.Layout.{ledger_of};
ghost use Rattle.storing.specs.Storing.{Storing};

use cells::with_vote;
use pool::weight_of;
use record::{load_card, load_cell, stake, store_card, store_cell};
use rulebook::{Node, Slot, Tally, VoteKind, Weight, Who};
use tally::{adds, update};

// What a node's vote adds to the card of its slot. Only a notar vote asks what its block weighs so far: the card tells it of the leader,
// another block is weighed.
fn change_of(rec: &[u64], s: Slot, n: Node, k: VoteKind, b: u64) -> Tally
    requires { Storing rec.now s.0 n.0 }
    ensures { result ≡ change_of (ledger_of rec.now) s.0 n.0 k b }
{
    let c = load_cell(rec, s, n);
    let w = stake(rec, n);
    match k {
        VoteKind::Notar => adds(c, k, b, w, weight_of(rec, s, Who::Notar(b))),
        _ => adds(c, k, b, w, Weight(0)),
    }
}

// Stores a node's vote and changes the slot's card.
pub fn store_vote(rec: &mut [u64], s: Slot, n: Node, k: VoteKind, b: u64)
    requires { Storing rec.old s.0 n.0 }
    ensures { ledger_of rec.new ≡ store_vote (ledger_of rec.old) s.0 n.0 k b }
{
    let d = change_of(rec, s, n, k, b);
    let mut card = load_card(rec, s);
    update(&mut card, d);
    let c = load_cell(rec, s, n);
    store_cell(rec, s, n, with_vote(c, k, b));
    store_card(rec, s, card);
}
