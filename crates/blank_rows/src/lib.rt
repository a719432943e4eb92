// Rows of a record with nothing in them, found by or-ing all words of a slot's row.
#![tactic(auto)]

ghost use Rattle.std.specs.Prelude.{◌≡◌, ◌+◌, ◌≤◌, length};
ghost use Rattle.rulebook.specs.Ledger.{none};
ghost use Rattle.record.specs.Layout.{InSlot, ledger_of};
ghost use Rattle.kept_certificates.specs.Kept.{all_none};
ghost use Rattle.blank_rows.specs.Blank.{seconds_none, nothing_in};

use record::{MOST_CERTIFICATES, kept_start, mask_words, places_in};
use rulebook::Slot;

// The words of a row before its places for certificates, and those of a cell.
const KEPT_AT: usize = 20;

const CELL_WORDS: usize = 7;

// Eight words or-ed together, every second one from a place on.
fn every_second(words: &[u64], i: usize) -> u64
    requires { i + 15 ≤ length words.now }
    ensures { none result ≡ seconds_none words.now i }
{
    let front = (words[i] | words[i + 2]) | (words[i + 4] | words[i + 6]);
    front | ((words[i + 8] | words[i + 10]) | (words[i + 12] | words[i + 14]))
}

// Whether sixteen words or more are all 0: the last sixteen, then sixteen in a turn from the front, two by two, as a machine can. Some of
// the last may be looked at twice, which changes nothing.
fn all_none(words: &[u64]) -> bool
    requires { 16 ≤ length words.now }
    ensures { result ≡ all_none words.now }
{
    let last = words.len() - 16;
    let mut even = every_second(words, last);
    let mut odd = every_second(words, last + 1);
    let turns = (words.len() - 1) / 16;
    for k in 0..turns {
        even = even | every_second(words, 16 * k);
        odd = odd | every_second(words, 16 * k + 1);
    }
    (even | odd) == 0
}

// Whether nothing stands in a slot's row: all its words are 0.
pub fn nothing_in(rec: &[u64], s: Slot) -> bool
    requires { InSlot rec.now s.0 }
    ensures { result ≡ nothing_in (ledger_of rec.now) s.0 }
{
    let from = kept_start(rec, s, 0) - KEPT_AT;
    let places = places_in(rec);
    let size = KEPT_AT + MOST_CERTIFICATES * (1 + 2 * mask_words(places)) + CELL_WORDS * places;
    let row = &rec[from..from + size];
    all_none(row)
}
