// Which votes of two records differ: every stored vote that one of them has and the other has not, as lines in a lent list.
#![tactic(auto)]

ghost use Rattle.std.specs.Prelude.{◌≡◌, [], ◌∷◌, ◌+◌, ◌≤◌, set, ltb};
ghost use Rattle.rulebook.specs.Tools.{lower, lowest};
ghost use Rattle.record.specs.Layout.{ledger_of};
ghost use Rattle.difference_lines.specs.Lines.{line_for, vote_line, blocks_of, block_lines, cell_lines, slot_lines, vote_lines, tables_line};
ghost use Rattle.difference_lines.specs.Lines.{side_number as sideNumberOf, keeps as keepsVote, same_tables as sameTablesOf};
ghost use Rattle.differences.specs.Rows.{Row, ListsAll, most_lines};
ghost use Rattle.differences.specs.Both.{both_sound};
ghost use Rattle.differences.specs.Lent.{Laid, Sounds, Alike, InRow, ListedIn, DifferOf};

use cells::place_of;
use difference_lines::Side;
use record::{LAST_SLOT, count, load_cell, stakes_of};
use rulebook::{Cell, Node, Place, Slot, Vote, VoteKind};
use soundness::sound;

// How many words a line has.
const LINE_WORDS: usize = 5;

// How many blocks two cells name at most in votes of one kind.
const MOST_NAMED: usize = 6;

// Why nothing was listed: the side whose record is bad, or the number of lines needed.
#[derive(Clone, Copy, Debug, PartialEq, Eq)]
pub enum DifferRefusal {
    BadRecord(Side),
    NoRoom(usize),
}

// A side's number beside a vote and beside 17.
#[tactic(auto, unfolding(difference_lines::specs::Lines::side_number))]
pub fn side_number(side: Side) -> u64
    ensures { result ≡ sideNumberOf side }
{
    match side {
        Side::First => 1,
        Side::Second => 2,
        Side::Neither => 0,
    }
}

// Puts a word where the list has a place for it.
pub fn put_word(list: &mut [u64], i: usize, w: u64)
    ensures { list.new ≡ set list.old i w }
{
    if i < list.len() {
        list[i] = w;
    }
}

// Puts a line's words behind the first `at` lines, as far as the list reaches, and answers how many lines there are then.
pub fn put_row(list: &mut [u64], at: usize, row: [u64; LINE_WORDS]) -> usize
    requires { at + 1 ≤ most_lines }
    ensures { Row list.old at row list.new result }
{
    for (k, w) in row.iter().enumerate() {
        put_word(list, LINE_WORDS * at + k, *w);
    }
    at + 1
}

// Lists all lines, counted first: where they have no room, nothing is put, and the number of lines needed is answered.
pub fn list_all<F: Fn(&mut [u64]) -> usize>(list: &mut [u64], put: F) -> Result<usize, usize>
    requires { F.IsAlwaysCallable put }
    ensures { ListsAll F.Fn put list.old result list.new }
{
    let needed = put(&mut list[0..0]);
    if list.len() / LINE_WORDS < needed {
        return Err(needed);
    }
    if needed == 0 {
        return Ok(0);
    }
    Ok(put(list))
}

// Puts a line behind the first `at`, and answers how many there are then.
fn put_line(list: &mut [u64], at: usize, v: Vote, side: Side) -> usize
    requires { at + 1 ≤ most_lines }
    ensures { Laid list.old at (line_for v side ∷ []) list.new result }
{
    let row = [
        v.slot.0 as u64,
        v.node.0 as u64,
        u64::from(v.kind),
        v.block,
        side_number(side),
    ];
    put_row(list, at, row)
}

// Whether a cell keeps that very vote.
#[tactic(auto, unfolding(difference_lines::specs::Lines::keeps, difference_lines::specs::Lines::is_same))]
fn keeps(c: Cell, k: VoteKind, b: u64) -> bool
    ensures { result ≡ keepsVote c k b }
{
    place_of(c, k, b) == Place::Same
}

// Puts the line for a vote, where one of its node's cells keeps it and the other does not.
fn put_vote(list: &mut [u64], at: usize, v: Vote, c: Cell, d: Cell) -> usize
    requires { at + 1 ≤ most_lines }
    ensures { Laid list.old at (vote_line c d v) list.new result }
{
    let k = v.kind;
    let first = keeps(c, k, v.block);
    let second = keeps(d, k, v.block);
    if first & !second {
        return put_line(list, at, v, Side::First);
    }
    if second & !first {
        return put_line(list, at, v, Side::Second);
    }
    at
}

// The lower of b, where it is above a block, and the best so far; 0 is none.
fn above(after: u64, b: u64, best: u64) -> u64
    ensures { result ≡ lower (ltb after b) b best }
{
    if b <= after {
        return best;
    }
    if (best != 0) & (best < b) {
        return best;
    }
    b
}

// The same for the three fallback blocks of a cell.
fn fallback_above(after: u64, c: Cell, best: u64) -> u64
    ensures { result ≡ lower (ltb after c.fallback1) c.fallback1 (lower (ltb after c.fallback2) c.fallback2 (lower (ltb after c.fallback3) c.fallback3 best)) }
{
    let third = above(after, c.fallback3, best);
    let second = above(after, c.fallback2, third);
    above(after, c.fallback1, second)
}

// The lowest block above another that two cells name in votes of a kind, 0 where there is none.
#[tactic(auto, unfolding(rulebook::specs::Tools::lowest, difference_lines::specs::Lines::blocks_of))]
fn block_above(after: u64, k: VoteKind, c: Cell, d: Cell) -> u64
    ensures { result ≡ lowest (ltb after) (blocks_of k c d) }
{
    match k {
        VoteKind::Notar => {
            let there = above(after, d.notar, 0);
            above(after, c.notar, there)
        }
        VoteKind::NotarFallback => {
            let there = fallback_above(after, d, 0);
            fallback_above(after, c, there)
        }
        VoteKind::Skip | VoteKind::SkipFallback | VoteKind::Final | VoteKind::Other => 0,
    }
}

// Puts the lines of a kind that carries blocks, blocks ascending.
fn put_blocks(
    list: &mut [u64],
    at: usize,
    slot: Slot,
    node: Node,
    kind: VoteKind,
    c: Cell,
    d: Cell,
) -> usize
    requires { at + 6 ≤ most_lines }
    ensures { Laid list.old at (block_lines slot.0 node.0 c d kind) list.new result }
{
    let mut next = at;
    let mut last = 0;
    for i in 0..MOST_NAMED {
        let block = block_above(last, kind, c, d);
        if block == 0 {
            return next;
        }
        let v = Vote {
            kind,
            node,
            slot,
            block,
        };
        next = put_vote(list, next, v, c, d);
        last = block;
    }
    next
}

// Puts the lines of one node in one slot.
fn put_cell(list: &mut [u64], at: usize, slot: Slot, node: Node, c: Cell, d: Cell) -> usize
    requires { at + 15 ≤ most_lines }
    ensures { Laid list.old at (cell_lines slot.0 node.0 c d) list.new result }
{
    let vote = |kind| Vote {
        kind,
        node,
        slot,
        block: 0,
    };
    let a = put_blocks(list, at, slot, node, VoteKind::Notar, c, d);
    let b = put_blocks(list, a, slot, node, VoteKind::NotarFallback, c, d);
    let e = put_vote(list, b, vote(VoteKind::Skip), c, d);
    let f = put_vote(list, e, vote(VoteKind::SkipFallback), c, d);
    put_vote(list, f, vote(VoteKind::Final), c, d)
}

// The same, by one look where the cells are equal.
fn put_node(list: &mut [u64], at: usize, slot: Slot, node: Node, c: Cell, d: Cell) -> usize
    requires { at + 15 ≤ most_lines }
    ensures { Laid list.old at (cell_lines slot.0 node.0 c d) list.new result }
{
    if c == d {
        return at;
    }
    put_cell(list, at, slot, node, c, d)
}

// Puts the lines of a slot, nodes ascending.
fn put_slot(list: &mut [u64], at: usize, one: &[u64], two: &[u64], slot: Slot) -> usize
    requires { InRow one.now two.now slot.0 at }
    ensures { Laid list.old at (slot_lines (ledger_of one.now) (ledger_of two.now) slot.0) list.new result }
{
    let nodes = count(one);
    let mut next = at;
    for n in 0..nodes {
        let c = load_cell(one, slot, Node(n));
        let d = load_cell(two, slot, Node(n));
        next = put_node(list, next, slot, Node(n), c, d);
    }
    next
}

// Puts the lines of all slots, and answers how many there are, also where the list is too short for them.
fn put_votes(list: &mut [u64], one: &[u64], two: &[u64]) -> usize
    requires { Alike one.now two.now }
    ensures { Laid list.old 0 (vote_lines (ledger_of one.now) (ledger_of two.now)) list.new result }
{
    let mut next = 0;
    for i in 0..LAST_SLOT {
        next = put_slot(list, next, one, two, Slot(i + 1));
    }
    next
}

// Lists the votes that differ, counted first: where they have no room, nothing is put.
fn list_votes(list: &mut [u64], one: &[u64], two: &[u64]) -> Result<usize, DifferRefusal>
    requires { Alike one.now two.now }
    ensures { ListedIn list.old (vote_lines (ledger_of one.now) (ledger_of two.now)) result list.new }
{
    list_all(list, |part| put_votes(part, one, two)).map_err(DifferRefusal::NoRoom)
}

// Lists the one line that says that the stake tables differ.
fn list_tables(list: &mut [u64]) -> Result<usize, DifferRefusal>
    ensures { ListedIn list.old (tables_line ∷ []) result list.new }
{
    if list.len() < LINE_WORDS {
        return Err(DifferRefusal::NoRoom(1));
    }
    let v = Vote {
        kind: VoteKind::Other,
        node: Node(0),
        slot: Slot(0),
        block: 0,
    };
    Ok(put_line(list, 0, v, Side::Neither))
}

// The side whose words are no record, the first if both are none.
#[tactic(auto, unfolding(crate::specs::Both::both_sound, rulebook::specs::Tools::whenever))]
pub fn both_sound(one: &[u64], two: &[u64]) -> Result<(), Side>
    ensures { result ≡ both_sound one.now two.now }
{
    if !sound(one) {
        return Err(Side::First);
    }
    if !sound(two) {
        return Err(Side::Second);
    }
    Ok(())
}

// Whether two records have the same stake table, whatever their own numbers.
pub fn same_tables(one: &[u64], two: &[u64]) -> bool
    requires { Sounds one.now two.now }
    ensures { result ≡ sameTablesOf (ledger_of one.now) (ledger_of two.now) }
{
    stakes_of(one) == stakes_of(two)
}

// Which stored votes of two records differ, as lines from the list's front: refused with 17 and the side, or with 9 and the number of
// lines needed, and the list as found; different stake tables give the one line that says so.
pub fn differ(one: &[u64], two: &[u64], list: &mut [u64]) -> Result<usize, DifferRefusal>
    ensures { DifferOf one.now two.now list.old result list.new }
{
    both_sound(one, two).map_err(DifferRefusal::BadRecord)?;
    if !same_tables(one, two) {
        return list_tables(list);
    }
    list_votes(list, one, two)
}
