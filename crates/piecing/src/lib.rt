// The commands of proofs in pieces: which of a line's words go to which function of the face, and how it is answered.
#![tactic(auto)]

ghost use Rattle.std.specs.Prelude.{◌≡◌};
ghost use Rattle.std.proofs.lemmas.List.Edits.{sets};
ghost use Rattle.piecing.specs.Answer.{piece_line};

use door::{Unwritten, send_page};
use hex_bytes::read_hex;
use lines::Page;
use quointrowel::{qr_end, qr_piece};
use replies::{checked, malformed, number};
use rulebook::Weight;
use script::{Word, read_numbers, word_at};

// A piece's answer: more, or its number.
fn taken(page: &mut [u8], n: u64) -> Result<(), Unwritten>
    ensures { page.new ≡ sets page.old 0 (piece_line n) }
{
    if n != 0 {
        return number(page, n);
    }
    let mut line = Page::new(page);
    line.text(b"more\n");
    send_page(&line)
}

// piece HEX STAKE..; a line has no room for more than 32,768 bytes of packet, and 2,049 stakes are kept, which are too many already.
pub fn piece(
    page: &mut [u8],
    line: &[u8],
    at: usize,
    pieces: &mut [u64],
    front: &mut [u8],
) -> Result<(), Unwritten> {
    let Word { from, to } = word_at(line, at);
    let mut bytes = [0u8; 32768];
    let Some(size) = read_hex(&line[from..to], &mut bytes) else {
        return malformed(page);
    };
    let mut stakes = [0u64; 2049];
    let Ok(many) = read_numbers(line, to, &mut stakes) else {
        return malformed(page);
    };
    let kept = many.min(stakes.len());
    taken(
        page,
        qr_piece(pieces, front, &stakes[..kept], &bytes[..size]),
    )
}

// end
pub fn end(page: &mut [u8], pieces: &mut [u64], front: &mut [u8]) -> Result<(), Unwritten> {
    let mut values = [0u64; 5];
    let mut missing = 0;
    let n = qr_end(pieces, front, &mut values, &mut missing);
    checked(page, n, &values, Weight(missing))
}
