// Votes as bytes: a vote message is kind, node, slot and block, four numbers in groups of seven bits.
#![tactic(auto)]

ghost use Rattle.std.specs.Prelude.{◌≡◌, length, Ok};
ghost use Rattle.rulebook.specs.Messages.{vote_tests, read_vote, message_bytes, message_verdict, write_vote};
ghost use Rattle.rulebook.specs.Writers.{Writes};
ghost use Rattle.numbers.specs.Written.{Room, Written};

use inputs::vote_of;
use kinds::{count_fits, is_other_vote, not_in_table, slot_ok, vote_misfits};
use numbers::{read_number, write_number};
use rulebook::{Node, Refusal, Slot, Vote};

// The bytes that a writer must be lent.
const ROOM: usize = 16;

// 4, 3, 2, 5, in this order.
#[tactic(auto, unfolding(rulebook::specs::Messages::vote_tests, rulebook::specs::Inputs::refuse_if))]
fn vote_tests(count: usize, v: Vote) -> Result<(), Refusal>
    ensures { result ≡ vote_tests count v (Ok tt) }
{
    if is_other_vote(v.kind) {
        return Err(Refusal::BadKind);
    }
    if !slot_ok(v.slot) {
        return Err(Refusal::BadSlot);
    }
    if not_in_table(count, v.node) {
        return Err(Refusal::BadNode);
    }
    if vote_misfits(v.kind, v.block) {
        return Err(Refusal::BadBlock);
    }
    Ok(())
}

// The vote that a message spells, for a table of so many nodes.
#[tactic(auto, using(crate::proofs::Tested::read_tested, crate::proofs::Tested::read_refused), unfolding(rulebook::specs::Messages::read_vote, rulebook::specs::Messages::as_read, rulebook::specs::Messages::read_on, rulebook::specs::Inputs::refuse_if, rulebook::specs::Tools::whenever,))]
pub fn read_vote(count: usize, bytes: &[u8]) -> Result<Vote, Refusal>
    ensures { result ≡ read_vote count bytes.now }
{
    if !count_fits(count) {
        return Err(Refusal::BadSizes);
    }
    let (kind, p) = read_number(bytes, 0)?;
    let (node, q) = read_number(bytes, p)?;
    let (slot, r) = read_number(bytes, q)?;
    let (block, next) = read_number(bytes, r)?;
    let v = vote_of(kind, Node(node as usize), Slot(slot as usize), block);
    vote_tests(count, v)?;
    if next < bytes.len() {
        return Err(Refusal::BadLength);
    }
    Ok(v)
}

// 1, 9, 4, 3, 2, 5, in this order, for a buffer of so many bytes.
#[tactic(auto, unfolding(rulebook::specs::Messages::message_verdict, rulebook::specs::Inputs::refuse_if))]
fn message_verdict(count: usize, room: usize, v: Vote) -> Result<(), Refusal>
    ensures { result ≡ message_verdict count room v }
{
    if !count_fits(count) {
        Err(Refusal::BadSizes)
    } else if room < ROOM {
        Err(Refusal::NoRoom)
    } else {
        vote_tests(count, v)
    }
}

// Writes the four numbers from the buffer's front and answers how many bytes they take.
#[tactic(auto, using(crate::proofs::Tested::message_length))]
fn lay_vote(buffer: &mut [u8], v: Vote) -> usize
    requires { Room buffer.old 0 (message_bytes v) }
    ensures { Written buffer.old 0 (message_bytes v) buffer.new result }
{
    let p = write_number(buffer, 0, u64::from(v.kind));
    let q = write_number(buffer, p, v.node.0 as u64);
    let r = write_number(buffer, q, v.slot.0 as u64);
    write_number(buffer, r, v.block)
}

// Writes the message of a vote to the buffer's front, for a table of so many nodes.
pub fn write_vote(count: usize, v: Vote, buffer: &mut [u8]) -> Result<usize, Refusal>
    ensures { Writes (write_vote count (length buffer.old) v) buffer.old result buffer.new }
{
    message_verdict(count, buffer.len(), v)?;
    Ok(lay_vote(buffer, v))
}
