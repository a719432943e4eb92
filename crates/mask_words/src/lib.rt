// The words of a signer mask: read at a place of a packet into lent words, written at a place of lent bytes.
#![tactic(auto)]

ghost use Rattle.std.specs.Prelude.{◌≡◌, length};
ghost use Rattle.rulebook.specs.Packets.{mask_at, mask_bytes, joined};
ghost use Rattle.mask_words.specs.Told.{laid_as};
ghost use Rattle.numbers.specs.Written.{Room, Written};

use numbers::{take_number, write_number};
use rulebook::Unread;

// Reads as many numbers as there are lent words into them, lowest nodes first; the first that cannot be read decides.
pub fn read_mask(bytes: &[u8], at: usize, mask: &mut [u64]) -> Result<usize, Unread>
    ensures { laid_as result (joined mask.new) ≡ mask_at (length mask.old) bytes.now at }
{
    let mut p = at;
    for word in mask.iter_mut() {
        (*word, p) = take_number(bytes, p)?;
    }
    Ok(p)
}

// Writes the words of a mask from a place on and answers the place after them.
pub fn write_mask(bytes: &mut [u8], at: usize, mask: &[u64]) -> usize
    requires { Room bytes.old at (mask_bytes (length mask.now) (joined mask.now)) }
    ensures { Written bytes.old at (mask_bytes (length mask.now) (joined mask.now)) bytes.new result }
{
    let mut p = at;
    for &word in mask {
        p = write_number(bytes, p, word);
    }
    p
}
