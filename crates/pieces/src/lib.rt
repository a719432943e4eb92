// The checker of a finality proof that arrives in pieces. The host lends the state, words and bytes; all zeros, nothing has been taken.
#![tactic(auto)]

ghost use Rattle.std.specs.Prelude.{◌≡◌, ◌+◌, ◌≤◌, length};
ghost use Rattle.std.specs.List.{list_all};
ghost use Rattle.std.proofs.Math.Seq.{paste};
ghost use Rattle.pieces.specs.State.{state_words, front_bytes, nodes, is_sized, is_ready, holds_table, is_whole, Sized, Taking, Keeps, with_table, PieceOf, EndOf};

use checker::check_proof;
use rulebook::{Accepted, Refusal};
use stakes::make_table;

// Words of the state: how far the packet is, how many nodes the table has, and a stake for each of at most 2,048.
pub const STATE_WORDS: usize = 2_050;

// Bytes of the state: all that a proof's answer can depend on. A proof has at most two certificates of 67 numbers of ten bytes; of what
// follows them the first byte alone can be seen.
pub const FRONT_BYTES: usize = 1_341;

// How many words a state has.
pub fn state_words() -> usize
    ensures { result ≡ state_words }
{
    STATE_WORDS
}

// How many bytes a state has.
pub fn front_bytes() -> usize
    ensures { result ≡ front_bytes }
{
    FRONT_BYTES
}

// How many nodes the table of a state has.
pub fn node_count(words: &[u64]) -> usize
    ensures { result ≡ nodes words.now }
{
    if words.len() < 2 {
        return 0;
    }
    words[1] as usize
}

// Whether all of these are such a one: their tests are joined, with none between them.
fn all_are<T: PartialEq>(xs: &[T], x: &T) -> bool
    ensures { result ≡ list_all (λ y. T.eq y x.now) xs.now }
{
    xs.iter().fold(true, |all, y| all & (y == x))
}

// Copies the first n of these to a place and those after it. By a loop, since std's copying would want memmove of the host.
fn copy_first<T: Copy>(to: &mut [T], at: usize, from: &[T], n: usize)
    requires from { n ≤ length from.now }
    requires to { at + n ≤ length to.old }
    ensures { to.new ≡ paste to.old at from.now n }
{
    for i in 0..n {
        to[at + i] = from[i];
    }
}

// Whether a state has the size of one.
fn is_sized(words: &[u64], front: &[u8]) -> bool
    ensures { result ≡ is_sized words.now front.now }
{
    (words.len() == STATE_WORDS) & (front.len() == FRONT_BYTES)
}

// Not 17 for a piece: the lengths, and how far the packet is; where nothing was taken, nothing but zeros.
fn is_ready(words: &[u64], front: &[u8]) -> bool
    ensures { result ≡ is_ready words.now front.now }
{
    if !is_sized(words, front) {
        return false;
    }
    if words[0] != 0 {
        return words[0] <= 1_342;
    }
    all_are(words, &0) & all_are(front, &0)
}

// The stakes are a table, and the places past them are not used.
fn holds_table(words: &[u64]) -> bool
    requires { length words.now ≡ state_words }
    ensures { result ≡ holds_table words.now }
{
    if words[1] > 2_048 {
        return false;
    }
    let past = 2 + words[1] as usize;
    make_table(&words[2..past]).is_some() & all_are(&words[past..], &0)
}

// Not 17 for the end: the whole state is one that calls leave.
fn is_whole(words: &[u64], front: &[u8]) -> bool
    ensures { result ≡ is_whole words.now front.now }
{
    if !is_ready(words, front) {
        return false;
    }
    if words[0] == 0 {
        return true;
    }
    let kept = words[0] as usize - 1;
    holds_table(words) & all_are(&front[kept..], &0)
}

// Begins with a table: no byte yet.
fn keep_table(words: &mut [u64], stakes: &[u64])
    requires { Sized words.old stakes.now }
    ensures { words.new ≡ with_table words.old stakes.now }
{
    words[0] = 1;
    words[1] = stakes.len() as u64;
    copy_first(words, 2, stakes, stakes.len());
}

// Keeps as many bytes of a piece as can still count.
fn keep_bytes(words: &mut [u64], front: &mut [u8], bytes: &[u8])
    requires { Taking words.old front.old }
    ensures { Keeps words.old front.old bytes.now words.new front.new }
{
    let kept = words[0] as usize - 1;
    let n = bytes.len().min(FRONT_BYTES - kept);
    copy_first(front, kept, bytes, n);
    words[0] = (kept + n + 1) as u64;
}

// Takes a piece of a proof. The table is looked at with the first piece alone.
pub fn piece(
    words: &mut [u64],
    front: &mut [u8],
    stakes: &[u64],
    bytes: &[u8],
) -> Result<(), Refusal>
    ensures { PieceOf words.old front.old stakes.now bytes.now result words.new front.new }
{
    if !is_ready(words, front) {
        return Err(Refusal::BadRecord);
    }
    if words[0] != 0 {
        keep_bytes(words, front, bytes);
        return Ok(());
    }
    if make_table(stakes).is_none() {
        return Err(Refusal::BadSizes);
    }
    keep_table(words, stakes);
    keep_bytes(words, front, bytes);
    Ok(())
}

// Ends a proof: what the whole packet is answered. Then nothing has been taken.
pub fn end(words: &mut [u64], front: &mut [u8]) -> Result<Accepted, Refusal>
    ensures { EndOf words.old front.old result words.new front.new }
{
    if !is_whole(words, front) {
        return Err(Refusal::BadRecord);
    }
    if words[0] == 0 {
        return Err(Refusal::BadLength);
    }
    let kept = words[0] as usize - 1;
    let past = 2 + words[1] as usize;
    let a = check_proof(&words[2..past], &front[..kept]);
    words.fill(0);
    front.fill(0);
    a
}
