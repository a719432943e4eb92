// A certificate as numbers: read at a place of a packet, its masks into lent words, and written at a place of lent bytes.
#![tactic(auto)]

ghost use Rattle.std.specs.Prelude.{◌≡◌};
ghost use Rattle.rulebook.specs.Packets.{words_in, certificate_of, certificate_at, certificate_bytes};
ghost use Rattle.certificate_numbers.specs.Told.{heading_at, found_as, Scratch, Masks};
ghost use Rattle.numbers.specs.Written.{Room, Written};

use mask_words::{read_mask, write_mask};
use numbers::{take_number, write_number};
use rulebook::{Heading, Slot, Unread};

// The words to lend for a mask of any kind: room for 2,048 nodes.
pub const MOST_WORDS: usize = 32;

// The words of each mask, by the kind's number: 67 numbers for kinds 11 to 15, otherwise five.
#[tactic(auto, unfolding(rulebook::specs::Packets::words_in, rulebook::specs::Tools::choose))]
pub fn words_in(kind: u64) -> usize
    ensures { result ≡ words_in kind }
{
    match kind {
        11..=15 => MOST_WORDS,
        _ => 1,
    }
}

// The kind, slot and block at a place: the first that cannot be read decides.
#[tactic(auto, unfolding(crate::specs::Told::heading_at, crate::specs::Told::head_then))]
fn read_heading(bytes: &[u8], at: usize) -> Result<(Heading, usize), Unread>
    ensures { result ≡ heading_at bytes.now at }
{
    let (kind, p) = take_number(bytes, at)?;
    let (number, q) = take_number(bytes, p)?;
    let (block, next) = take_number(bytes, q)?;
    let slot = Slot(number as usize);
    Ok((Heading { kind, slot, block }, next))
}

// The certificate at a place: its heading, and then its masks at the front of lent words, as many as its kind says.
pub fn read_certificate(
    bytes: &[u8],
    at: usize,
    a: &mut [u64],
    b: &mut [u64],
) -> Result<(Heading, usize), Unread>
    requires { Scratch a.old b.old }
    ensures { found_as result a.new b.new ≡ certificate_at bytes.now at }
{
    let (c, p) = read_heading(bytes, at)?;
    let words = words_in(c.kind);
    let q = read_mask(bytes, p, &mut a[..words])?;
    let next = read_mask(bytes, q, &mut b[..words])?;
    Ok((c, next))
}

// Writes a certificate's heading and the words of its masks from a place on and answers the place after them.
#[tactic(auto, using(crate::proofs::Parts::parts_long))]
pub fn write_certificate(bytes: &mut [u8], at: usize, c: Heading, a: &[u64], b: &[u64]) -> usize
    requires { (Masks c a.now b.now) × Room bytes.old at (certificate_bytes (certificate_of c a.now b.now)) }
    ensures { Written bytes.old at (certificate_bytes (certificate_of c a.now b.now)) bytes.new result }
{
    let p = write_number(bytes, at, c.kind);
    let q = write_number(bytes, p, c.slot.0 as u64);
    let r = write_number(bytes, q, c.block);
    let t = write_mask(bytes, r, a);
    write_mask(bytes, t, b)
}
