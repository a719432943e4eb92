// The voter's casts: an own vote goes into the own pool and to the outbox; skips for a window.
#![tactic(auto)]

ghost use Rattle.std.specs.Prelude.{◌≡◌, ◌+◌, ◌*◌, ◌<◌, length};
ghost use Rattle.rulebook.specs.Ledger.{no_initial};
ghost use Rattle.rulebook.specs.Rules.{cast, cast_skip, cast_skips};
ghost use Rattle.voter.specs.Outbox.{state_in, Told, Moved};
ghost use Rattle.voter.specs.Voting.{Castable, CastingAt, Onward};

use record::{own, own_cell};
use rulebook::{Cell, Slot, VoteKind};
use storing::store_vote;

// Writes one record behind the first `at`; answers how many there are then.
pub fn tell(outbox: &mut [u64], at: usize, kind: u64, s: Slot, block: u64) -> usize
    requires { 3 * at + 2 < length outbox.old }
    ensures { Told outbox.old at kind s.0 block outbox.new result }
{
    let i = 3 * at;
    outbox[i] = kind;
    outbox[i + 1] = s.0 as u64;
    outbox[i + 2] = block;
    at + 1
}

// Casts an own vote: into the own pool, and to the outbox.
pub fn cast_vote(
    rec: &mut [u64],
    outbox: &mut [u64],
    at: usize,
    s: Slot,
    k: VoteKind,
    block: u64,
) -> usize
    requires { Castable rec.old outbox.old at s.0 }
    ensures { Moved rec.old outbox.old at rec.new outbox.new result (cast (state_in rec.old outbox.old at) s.0 k block) }
{
    let n = own(rec);
    store_vote(rec, s, n, k, block);
    tell(outbox, at, u64::from(k), s, block)
}

// Whether a cell has no initial vote.
pub fn no_initial(c: Cell) -> bool
    ensures { result ≡ no_initial c }
{
    (c.notar == 0) & (c.skip == 0)
}

// Casts skip in a slot without an own initial vote.
fn cast_skip(rec: &mut [u64], outbox: &mut [u64], at: usize, s: Slot) -> usize
    requires { CastingAt rec.old outbox.old at s.0 }
    ensures { Onward rec.old outbox.old at rec.new outbox.new result (cast_skip (state_in rec.old outbox.old at) s.0) }
{
    if no_initial(own_cell(rec, s)) {
        return cast_vote(rec, outbox, at, s, VoteKind::Skip, 0);
    }
    at
}

// Casts skip in every slot of the window without an own initial vote, ascending.
pub fn cast_skips(rec: &mut [u64], outbox: &mut [u64], at: usize, s: Slot) -> usize
    requires { CastingAt rec.old outbox.old at s.0 }
    ensures { Onward rec.old outbox.old at rec.new outbox.new result (cast_skips (state_in rec.old outbox.old at) s.0) }
{
    let first = (s.0 - 1) / 4 * 4 + 1;
    let one = cast_skip(rec, outbox, at, Slot(first));
    let two = cast_skip(rec, outbox, one, Slot(first + 1));
    let three = cast_skip(rec, outbox, two, Slot(first + 2));
    cast_skip(rec, outbox, three, Slot(first + 3))
}
