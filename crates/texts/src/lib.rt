// The text of each number that an operation answers, for people, put into lent bytes.
#![tactic(auto)]

ghost use Rattle.std.specs.Prelude.{◌≡◌, length};
ghost use Rattle.rulebook.specs.Writers.{Writes};
ghost use Rattle.lines.specs.Page.{Wrote};
ghost use Rattle.texts.specs.Texts.{last_text, later_text, refusal_text, text_on};

use lines::Page;
use rulebook::Refusal;

// What a buffer for a text has at least.
const ROOM: usize = 512;

// Puts the text of 13 to 18; every other number is none.
fn put_last(line: &mut Page, n: u64)
    ensures { Wrote line.old (last_text n) line.new }
{
    match n {
        13 => line.text(b"A number is not shortest, or above 64 bits."),
        14 => line.text(
            b"A signer is beyond the table or in both masks, or mask B is used where 0 is due.",
        ),
        15 => line.text(
            b"The weight is below the threshold; a check tells beside it what is missing.",
        ),
        16 => line.text(b"The packet is not one of the two proof forms."),
        17 => line.text(
            b"No node is started; or the record has a wrong length, a field outside its range, an own number above the number of nodes, a total that is not the sum, a fallback block kept twice for one node, an own notar-fallback whose block does not reach rule D's weights, a block kept twice in a slot, a tally card that a recount of the slot's votes does not give, a kept certificate that the checker refuses or that repeats another, or an unused place that is not 0.",
        ),
        18 => line.text(b"The certificate or proof asked for is not held."),
        _ => line.text(b"No refusal has this number."),
    }
}

// Puts the text of 7 to 12, and of those after them.
fn put_later(line: &mut Page, n: u64)
    ensures { Wrote line.old (later_text n) line.new }
{
    match n {
        7 => line.text(
            b"That very vote, block with parent, or timeout is already kept; or a certificate of that kind, slot and block.",
        ),
        8 => line.text(
            b"Another stands in its place: a second initial vote, a fourth notar-fallback, a fifth block of a slot, a kept block with another parent, another block in a kept certificate's place, a tenth certificate of kind 3.",
        ),
        9 => line.text(
            b"The outbox is below 160 records; or the buffer below 32 bytes for a certificate, 64 for a proof (768 and 1,536 with more than 64 nodes), 16 for a vote message, 512 for a text like this; or a tray has fewer places for answers than votes; or a list fewer lines than there are to tell.",
        ),
        10 => line.text(b"The timeout is for a window that is not armed."),
        11 => line.text(
            b"The parent slot is not below the slot, or is slot 0 with another number than genesis.",
        ),
        12 => line.text(
            b"The packet ends early, or bytes remain; or a part of a vote ends a tray; or no piece was taken before the end.",
        ),
        _ => put_last(line, n),
    }
}

// Puts the text of a number.
pub fn put_refusal(line: &mut Page, n: u64)
    ensures { Wrote line.old (refusal_text n) line.new }
{
    match n {
        0 => line.text(b"Done."),
        1 => line.text(b"The stake table, the own number or genesis breaks the sizes."),
        2 => line.text(b"The node number is not in the table."),
        3 => line.text(b"The slot is not 1 to 16."),
        4 => line.text(
            b"The kind is not 1 to 5; or, with more than 64 nodes, a certificate's is not 11 to 15; or the timeout is for a watcher.",
        ),
        5 => line.text(
            b"The block is 0 where one is needed, or not 0 where none is; or a block's parent number is 0.",
        ),
        6 => line.text(b"The vote is in the own node's name and came from outside."),
        _ => put_later(line, n),
    }
}

// Writes the text of a number to the buffer's front: 9 where the buffer is too short.
pub fn refusal_text(buffer: &mut [u8], n: u64) -> Result<usize, Refusal>
    ensures { Writes (text_on (length buffer.old) n) buffer.old result buffer.new }
{
    if buffer.len() < ROOM {
        return Err(Refusal::NoRoom);
    }
    let mut page = Page::new(buffer);
    put_refusal(&mut page, n);
    Ok(page.used())
}
