// The words of a script's line: where they stand, and what they say as a decimal number.
#![tactic(auto)]

ghost use Rattle.std.specs.Prelude.{◌≡◌, ◌+◌, ◌≤◌, length, replicate};
ghost use Rattle.script.specs.Words.{is_space, is_ink, Spanned, WordIn};
ghost use Rattle.script.specs.Numbers.{NumbersIn, numbers_of};
ghost use Rattle.script.specs.Digits.{decimal_of};

use slices::put_word;

// A word that is no number, and how many numbers stand before it.
#[derive(Clone, Copy, Debug, PartialEq, Eq)]
pub struct NoNumber {
    pub before: usize,
}

// Where a word stands in its line; nothing where there is no further word.
#[derive(Clone, Copy)]
pub struct Word {
    pub from: usize,
    pub to: usize,
}

// The first place at or after a place where no space stands.
fn skip_spaces(line: &[u8], at: usize) -> usize
    requires { at ≤ length line.now }
    ensures { Spanned is_space line.now at result }
{
    at + line[at..].iter().take_while(|b| **b == b' ').count()
}

// The first place at or after a place where a space stands, or the line ends.
fn word_end(line: &[u8], at: usize) -> usize
    requires { at ≤ length line.now }
    ensures { Spanned is_ink line.now at result }
{
    at + line[at..].iter().take_while(|b| **b != b' ').count()
}

// The next word at or after a place; a place past the line's end is its end.
pub fn word_at(line: &[u8], at: usize) -> Word
    ensures { WordIn line.now at result }
{
    let from = skip_spaces(line, at.min(line.len()));
    let to = word_end(line, from);
    Word { from, to }
}

// The decimal number that a word spells, leading zeros allowed.
pub fn read_decimal(word: &[u8]) -> Option<u64>
    ensures { result ≡ decimal_of word.now }
{
    if word.is_empty() {
        return None;
    }
    let mut v: u64 = 0;
    for b in word {
        if !b.is_ascii_digit() {
            return None;
        }
        let digit = u64::from(*b - b'0');
        let tens = v.checked_mul(10)?;
        v = tens.checked_add(digit)?;
    }
    Some(v)
}

// Reads the words from a place on as numbers, puts the first of them into out, as far as it has room, and answers how many there are.
pub fn read_numbers(line: &[u8], at: usize, out: &mut [u64]) -> Result<usize, NoNumber>
    ensures { NumbersIn line.now at out.old result out.new }
{
    let mut count = 0;
    let mut place = at;
    while place < line.len() {
        let Word { from, to } = word_at(line, place);
        if to <= from {
            return Ok(count);
        }
        let v = read_decimal(&line[from..to]).ok_or(NoNumber { before: count })?;
        put_word(out, count, v);
        count += 1;
        place = to;
    }
    Ok(count)
}

// The first N numbers from a place on, 0 where there are fewer.
pub fn numbers<const N: usize>(line: &[u8], at: usize) -> [u64; N]
    ensures { result ≡ (numbers_of line.now at (replicate N 0)).out }
{
    let mut out = [0; N];
    let _ = read_numbers(line, at, &mut out);
    out
}
