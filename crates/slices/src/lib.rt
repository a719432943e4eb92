// What is done with lent words in several places: the lesser of two counts, a word put where it has a place, and words copied.
#![tactic(auto)]

ghost use Rattle.std.specs.Prelude.{◌≡◌, ◌≤◌, min, set};
ghost use Rattle.std.proofs.lemmas.List.Edits.{sets};

// The smaller of two counts.
pub fn least(a: usize, b: usize) -> usize
    ensures value { result ≡ min a b }
    ensures upper_bound { result ≤ b }
{
    if a < b { a } else { b }
}

// Puts a word where there is a place for it.
pub fn put_word(words: &mut [u64], i: usize, w: u64)
    ensures { words.new ≡ set words.old i w }
{
    if i < words.len() {
        words[i] = w;
    }
}

// Copies words to the front of others, as far as these have places.
pub fn copy_words(from: &[u64], to: &mut [u64])
    ensures { to.new ≡ sets to.old 0 from.now }
{
    for i in 0..from.len() {
        put_word(to, i, from[i]);
    }
}
