// Numbers in groups of seven bits: read at a place of a packet, written at a place of lent bytes.
#![tactic(auto)]

ghost use Rattle.std.specs.Prelude.{◌≡◌};
ghost use Rattle.rulebook.specs.Packets.{last_fits, number_at, number_bytes};
ghost use Rattle.numbers.specs.Written.{Room, Written};

use rulebook::Unread;

// The group b may be the last one, above k bits: the shortest form, and no more than 64 bits.
#[tactic(auto, unfolding(rulebook::specs::Packets::last_fits))]
fn last_fits(k: u64, b: u64) -> bool
    ensures { result ≡ last_fits k b }
{
    ((k == 0) | (b != 0)) & ((k < 63) | (b <= 1))
}

// The number at a place, lowest group first; a place past the end reads as the packet's end.
pub fn read_number(bytes: &[u8], at: usize) -> Result<(u64, usize), Unread>
    ensures { result ≡ number_at bytes.now at }
{
    let mut v: u64 = 0;
    let mut k: u64 = 0;
    for i in at..bytes.len() {
        let b = u64::from(bytes[i]);
        if b < 128 {
            if last_fits(k, b) {
                return Ok((v | (b << k), i + 1));
            }
            return Err(Unread::Malformed);
        }
        if 63 <= k {
            return Err(Unread::Malformed);
        }
        v |= (b & 127) << k;
        k += 7;
    }
    Err(Unread::Early)
}

// The same, by one look where the number has one byte, as most have.
#[tactic(auto, using(crate::proofs::Turns::read_one))]
pub fn take_number(bytes: &[u8], at: usize) -> Result<(u64, usize), Unread>
    ensures { result ≡ number_at bytes.now at }
{
    match bytes.get(at) {
        Some(&b) if b < 128 => Ok((u64::from(b), at + 1)),
        _ => read_number(bytes, at),
    }
}

// Writes a number from a place on and answers the place after it.
pub fn write_number(bytes: &mut [u8], at: usize, v: u64) -> usize
    requires { Room bytes.old at (number_bytes v) }
    ensures { Written bytes.old at (number_bytes v) bytes.new result }
{
    let mut rest = v;
    let mut i = at;
    while 128 <= rest {
        bytes[i] = (rest % 128 + 128) as u8;
        rest >>= 7;
        i += 1;
    }
    bytes[i] = rest as u8;
    i + 1
}
