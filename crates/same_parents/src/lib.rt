// Blocks that two records keep with two parents, as lines in a lent list, two for each such block.
#![tactic(auto)]

ghost use Rattle.std.specs.Prelude.{◌≡◌, [], ◌∷◌, ◌+◌, ◌≤◌, length};
ghost use Rattle.rulebook.specs.Ledger.{blocks_at};
ghost use Rattle.record.specs.Layout.{ledger_of};
ghost use Rattle.differences.specs.Lent.{Sounds};
ghost use Rattle.inquest.specs.Vouched.{one_block};
ghost use Rattle.inquest_lines.specs.Lent.{ToldIn};
ghost use Rattle.same_parents.specs.Parents.{Laid, most_lines, pair_lines, place_lines, slot_lines, twice, twice_in, Beside, InBoth, ParentsOf};

use difference_lines::Side;
use differences::{put_row, side_number};
use inquest_lines::{ListRefusal, list_lines};
use record::{LAST_SLOT, MOST_BLOCKS, load_block};
use rulebook::{Block, Slot};
use vouching::comparable;

// A block that one of two records keeps in a slot, with its parent.
#[derive(Clone, Copy, Debug, PartialEq, Eq)]
pub struct ParentLine {
    pub slot: Slot,
    pub block: Block,
    pub side: Side,
}

// Whether two places that keep a block of one number keep it with one parent.
#[tactic(auto, unfolding(inquest::specs::Vouched::one_block, rulebook::specs::Inputs::same_block))]
fn one_block(a: Block, b: Block) -> bool
    ensures { result ≡ one_block a b }
{
    (a.number == 0) | (b.number != a.number) | (a == b)
}

// Puts a line behind the first `at`, as far as the list reaches, and answers how many there are then.
fn put_line(list: &mut [u64], at: usize, x: ParentLine) -> usize
    requires { at + 1 ≤ most_lines }
    ensures { Laid list.old at (x ∷ []) list.new result }
{
    let row = [
        x.slot.0 as u64,
        x.block.number,
        x.block.parentslot.0 as u64,
        x.block.parent,
        side_number(x.side),
    ];
    put_row(list, at, row)
}

// Puts the two lines of a number that two places keep with two parents.
fn put_pair(list: &mut [u64], at: usize, s: Slot, a: Block, b: Block) -> usize
    requires { at + 2 ≤ most_lines }
    ensures { Laid list.old at (pair_lines s.0 a b) list.new result }
{
    if one_block(a, b) {
        return at;
    }
    let first = ParentLine {
        slot: s,
        block: a,
        side: Side::First,
    };
    let next = put_line(list, at, first);
    let second = ParentLine {
        slot: s,
        block: b,
        side: Side::Second,
    };
    put_line(list, next, second)
}

// The same of one of the first record's places beside all of the second's.
fn put_place(list: &mut [u64], at: usize, two: &[u64], s: Slot, a: Block) -> usize
    requires { Beside two.now s.0 at }
    ensures { Laid list.old at (place_lines s.0 a (blocks_at (ledger_of two.now) s.0)) list.new result }
{
    let mut next = at;
    for j in 0..MOST_BLOCKS {
        let b = load_block(two, s, j);
        next = put_pair(list, next, s, a, b);
    }
    next
}

// The same of all places of a slot.
fn put_slot(list: &mut [u64], at: usize, one: &[u64], two: &[u64], s: Slot) -> usize
    requires { InBoth one.now two.now s.0 at }
    ensures { Laid list.old at (slot_lines (ledger_of one.now) (ledger_of two.now) s.0) list.new result }
{
    let mut next = at;
    for i in 0..MOST_BLOCKS {
        let a = load_block(one, s, i);
        next = put_place(list, next, two, s, a);
    }
    next
}

// Puts the lines of all slots, and answers how many there are, also where the list is too short for them.
fn put_slots(list: &mut [u64], one: &[u64], two: &[u64]) -> usize
    requires { Sounds one.now two.now }
    ensures { Laid list.old 0 (twice (ledger_of one.now) (ledger_of two.now)) list.new result }
{
    let mut next = 0;
    for i in 0..LAST_SLOT {
        next = put_slot(list, next, one, two, Slot(i + 1));
    }
    next
}

// Lists them, counted first: where they have no room, nothing is put.
fn list_twice(list: &mut [u64], one: &[u64], two: &[u64]) -> Result<usize, ListRefusal>
    requires { Sounds one.now two.now }
    ensures { ToldIn list.old (twice_in (length list.old) (twice (ledger_of one.now) (ledger_of two.now))) result list.new }
{
    list_lines(list, |part| put_slots(part, one, two))
}

// Which blocks of a slot and a number two records keep with two parents, as lines from the list's front. Refused with 17 and the side,
// with 1 where the stake tables differ, or with 9 and the number of lines needed, and the list as found.
pub fn same_parents(one: &[u64], two: &[u64], list: &mut [u64]) -> Result<usize, ListRefusal>
    ensures { ParentsOf one.now two.now list.old result list.new }
{
    comparable(one, two)?;
    list_twice(list, one, two)
}
