// A word of hex digits as the bytes of a packet.
#![tactic(auto)]

ghost use Rattle.std.specs.Prelude.{◌≡◌, ◌/◌, length};
ghost use Rattle.hex_bytes.specs.Bytes.{hex_digit, hex_pair, below, is_dash, pairs_good, spells_bytes, Pairs, put_pairs, HexIn};

// The value of a hex digit in either case.
fn hex_digit(b: u8) -> Option<u8>
    ensures { result ≡ below 16 (hex_digit b) }
{
    match b {
        b'0'..=b'9' => Some(b - b'0'),
        b'A'..=b'F' => Some(b - b'A' + 10),
        b'a'..=b'f' => Some(b - b'a' + 10),
        _ => None,
    }
}

// The byte that a pair of digits spells.
fn hex_pair(pair: &[u8; 2]) -> Option<u8>
    ensures { result ≡ below 256 (hex_pair pair.now 0) }
{
    let high = hex_digit(pair[0])?;
    let low = hex_digit(pair[1])?;
    Some(16 * high + low)
}

// Whether a word is the dash, which stands for the empty packet.
fn is_dash(word: &[u8]) -> bool
    ensures { result ≡ is_dash word.now }
{
    matches!(word, b"-")
}

// Whether the pairs of a word are hex digits.
fn all_pairs(word: &[u8]) -> bool
    ensures { result ≡ pairs_good word.now (length word.now / 2) }
{
    let (pairs, _) = word.as_chunks::<2>();
    for pair in pairs {
        if hex_pair(pair).is_none() {
            return false;
        }
    }
    true
}

// Whether a word spells bytes in pairs of hex digits, and no more than there is room for.
fn spells_bytes(word: &[u8], room: usize) -> bool
    ensures { result ≡ spells_bytes word.now room }
{
    if word.len() % 2 != 0 {
        return false;
    }
    word.len() / 2 <= room && all_pairs(word)
}

// Puts the bytes that the pairs of a word spell to the front of out.
fn put_pairs(word: &[u8], out: &mut [u8])
    requires { Pairs word.now (length word.now / 2) out.old }
    ensures { out.new ≡ put_pairs word.now (length word.now / 2) out.old }
{
    let (pairs, _) = word.as_chunks::<2>();
    for (i, pair) in pairs.iter().enumerate() {
        if let Some(b) = hex_pair(pair) {
            out[i] = b;
        }
    }
}

// Puts the bytes that a word spells in pairs of hex digits to the front of out, and answers how many they are; a dash spells none.
// An odd number of digits, a byte that is no digit, and more bytes than out has are no packet, and leave out as it was.
pub fn read_hex(word: &[u8], out: &mut [u8]) -> Option<usize>
    ensures { HexIn word.now out.old result out.new }
{
    if is_dash(word) {
        return Some(0);
    }
    if !spells_bytes(word, out.len()) {
        return None;
    }
    put_pairs(word, out);
    Some(word.len() / 2)
}
