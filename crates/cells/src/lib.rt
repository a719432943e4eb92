// What is kept of a node in a slot: where a vote would go, and the votes with one more.
#![tactic(auto)]

ghost use Rattle.std.specs.Prelude.{◌≡◌};
ghost use Rattle.rulebook.specs.Ledger.{none};
ghost use Rattle.rulebook.specs.Pool.{has_fallback};
ghost use Rattle.rulebook.specs.Votes.{place_if, place_of, fill_fallback, with_vote};

use rulebook::{Cell, Place, VoteKind};

// Whether the cell keeps a notar-fallback for b.
#[tactic(auto, unfolding(rulebook::specs::Pool::has_fallback))]
pub fn has_fallback(b: u64, c: Cell) -> bool
    ensures { result ≡ has_fallback b c }
{
    (c.fallback1 == b) | ((c.fallback2 == b) | (c.fallback3 == b))
}

// The very vote is there, else the place is free, else another stands in it.
#[tactic(auto, unfolding(rulebook::specs::Votes::place_if))]
fn place_if(same: bool, free: bool) -> Place
    ensures { result ≡ place_if same free }
{
    if same {
        Place::Same
    } else if free {
        Place::Free
    } else {
        Place::Taken
    }
}

// What a vote finds at its place in a cell.
#[tactic(auto, unfolding(rulebook::specs::Votes::place_of))]
pub fn place_of(c: Cell, k: VoteKind, b: u64) -> Place
    ensures { result ≡ place_of c k b }
{
    match k {
        VoteKind::Notar => place_if(c.notar == b, (c.notar == 0) & (c.skip == 0)),
        VoteKind::NotarFallback => place_if(has_fallback(b, c), c.fallback3 == 0),
        VoteKind::Skip => place_if(c.skip != 0, (c.notar == 0) & (c.skip == 0)),
        VoteKind::SkipFallback => place_if(c.skipfallback != 0, true),
        VoteKind::Final => place_if(c.finalvote != 0, true),
        VoteKind::Other => Place::Taken,
    }
}

// The cell with a notar-fallback block in the first free of its three places.
#[tactic(auto, unfolding(rulebook::specs::Votes::fill_fallback))]
fn fill_fallback(c: Cell, b: u64) -> Cell
    ensures { result ≡ fill_fallback (none c.fallback1) (none c.fallback2) (none c.fallback3) c b }
{
    if c.fallback1 == 0 {
        Cell { fallback1: b, ..c }
    } else if c.fallback2 == 0 {
        Cell { fallback2: b, ..c }
    } else if c.fallback3 == 0 {
        Cell { fallback3: b, ..c }
    } else {
        c
    }
}

// The cell with the vote kept in it.
#[tactic(auto, unfolding(rulebook::specs::Votes::with_vote))]
pub fn with_vote(c: Cell, k: VoteKind, b: u64) -> Cell
    ensures { result ≡ with_vote c k b }
{
    match k {
        VoteKind::Notar => Cell { notar: b, ..c },
        VoteKind::NotarFallback => fill_fallback(c, b),
        VoteKind::Skip => Cell { skip: 1, ..c },
        VoteKind::SkipFallback => Cell {
            skipfallback: 1,
            ..c
        },
        VoteKind::Final => Cell { finalvote: 1, ..c },
        VoteKind::Other => c,
    }
}
