// Writing to standard output: text, numbers, and bytes in hex digits. No contract can say what is written.
#![tactic(auto)]

const OUT: i32 = 1;

// Text as it stands.
pub fn say(text: &[u8]) {
    io::write_all(OUT, text);
}

// A number in decimal.
pub fn tell(n: u64) {
    io::print_decimal(OUT, n);
}

// A count or a place in decimal.
pub fn tell_size(n: usize) {
    tell(n as u64);
}

// The line's end.
pub fn end_line() {
    say(b"\n");
}

// The digits of base 16, in upper case.
const DIGITS: [u8; 16] = *b"0123456789ABCDEF";

// A byte as two digits.
fn tell_byte(b: u8) {
    let pair = [DIGITS[usize::from(b / 16)], DIGITS[usize::from(b % 16)]];
    say(&pair);
}

// Bytes in pairs of digits; a dash for none.
pub fn tell_bytes(bytes: &[u8]) {
    if bytes.is_empty() {
        say(b"-");
    }
    for b in bytes {
        tell_byte(*b);
    }
}

// The bytes at a buffer's front.
pub fn tell_front(buffer: &[u8], size: usize) {
    if let Some(front) = buffer.get(..size) {
        tell_bytes(front);
    }
}
