// The 17 test.
#![tactic(auto)]

ghost use Rattle.std.specs.Prelude.{◌≡◌, ◌&&◌, ◌||◌, suc, get_or, eqb, ltb};
ghost use Rattle.rulebook.specs.Tools.{all_to};
ghost use Rattle.rulebook.specs.Weights.{last_slot, windows, stake_in, stakes_fit, total_to};
ghost use Rattle.rulebook.specs.Ledger.{none, places, blocks_at, all_blocks};
ghost use Rattle.rulebook.specs.Inputs.{bad_parent};
ghost use Rattle.rulebook.specs.WellFormed.{flag, kept_fits, blocks_fit, backs, own_fits, block_blank, row_blank, head_fits};
ghost use Rattle.record.specs.Layout.{Long, InSlot, InBlocks, ledger_of};
ghost use Rattle.record.specs.BlockPlaces.{behind};
ghost use Rattle.blank_rows.specs.Blank.{nothing_in};
ghost use Rattle.kept_audit.specs.Judging.{Judging};
ghost use Rattle.pool.specs.Weighing.{Carded};
ghost use Rattle.soundness.specs.Sound.{row_stands, row_passes, sound_words, Headed, InRows, Standing, Backing};

use audit::{in_order, votes_fit};
use blank_rows::nothing_in;
use candidates::fallback_weights;
use kept_audit::certificates_fit;
use record::{
    LAST_SLOT, MOST_BLOCKS, WINDOWS, armed_word, clash_word, count, genesis, is_long, load_block,
    load_card, own, own_cell, places_for, places_in, stake, stakes_of, timeout_word, total,
};
use rulebook::{Block, Node, Slot};
use stakes::make_table;

// 11: the parent's slot is not below the slot, or it is slot 0 and the parent is not genesis.
pub fn bad_parent(rec: &[u64], s: Slot, b: Block) -> bool
    requires { Long rec.now }
    ensures { result ≡ bad_parent (ledger_of rec.now) s.0 b }
{
    let p = b.parentslot;
    let first = genesis(rec);
    (s.0 <= p.0) | ((p.0 == 0) & (b.parent != first))
}

// A kept block has a parent that 5 and 11 let pass; where none is kept its parent is 0 too.
fn kept_fits(rec: &[u64], s: Slot, b: Block) -> bool
    requires { Long rec.now }
    ensures { result ≡ kept_fits (ledger_of rec.now) s.0 b }
{
    let p = b.parentslot;
    if b.number != 0 {
        let bad = bad_parent(rec, s, b);
        (b.parent != 0) & !bad
    } else {
        (p.0 == 0) & (b.parent == 0)
    }
}

// Whether a number may stand in place n of a slot: each place before it keeps a block, of another number.
fn is_behind(rec: &[u64], s: Slot, n: usize, number: u64) -> bool
    requires { InBlocks rec.now s.0 n }
    ensures { result ≡ behind (blocks_at (ledger_of rec.now) s.0) n number }
{
    let mut ok = true;
    for j in 0..n {
        let k = load_block(rec, s, j);
        let here = in_order(k.number, number);
        ok = ok & here;
    }
    ok
}

// The kept blocks of a slot: parents that fit, places filled from the front, no number twice. Where the first place is empty,
// so are all.
fn blocks_fit(rec: &[u64], s: Slot) -> bool
    requires { InSlot rec.now s.0 }
    ensures { result ≡ blocks_fit (ledger_of rec.now) s.0 (blocks_at (ledger_of rec.now) s.0) }
{
    let first = load_block(rec, s, 0);
    if first.number == 0 {
        return blocks_blank(rec, s);
    }
    let mut ok = true;
    for n in 0..MOST_BLOCKS {
        let b = load_block(rec, s, n);
        let kept = kept_fits(rec, s, b);
        let apart = is_behind(rec, s, n, b.number);
        ok = ok & (kept & apart);
    }
    ok
}

// The parts of the row of one of the slots 1 to 16, but for what its own fallbacks lean on.
fn row_fits(rec: &[u64], s: Slot) -> bool
    requires { Judging rec.now s.0 }
    ensures { result ≡ row_stands (ledger_of rec.now) s.0 }
{
    let kept = blocks_fit(rec, s);
    let marked = (timeout_word(rec, s) <= 1) & (clash_word(rec, s) <= 1);
    if !(kept & marked) {
        return false;
    }
    if !certificates_fit(rec, s) {
        return false;
    }
    votes_fit(rec, s)
}

// A place with nothing in it.
fn block_blank(b: Block) -> bool
    ensures { result ≡ block_blank b }
{
    let p = b.parentslot;
    (b.number == 0) & ((p.0 == 0) & (b.parent == 0))
}

// No place of a slot has a block in it.
fn blocks_blank(rec: &[u64], s: Slot) -> bool
    requires { InSlot rec.now s.0 }
    ensures { result ≡ all_blocks block_blank (blocks_at (ledger_of rec.now) s.0) }
{
    let mut ok = true;
    for n in 0..MOST_BLOCKS {
        let here = block_blank(load_block(rec, s, n));
        ok = ok & here;
    }
    ok
}

// Whether a row has nothing in it. Most with something in them have a leader or a skip vote on the card, so that all words are looked at
// only where there is neither.
fn row_blank(rec: &[u64], s: Slot) -> bool
    requires { InSlot rec.now s.0 }
    ensures { result ≡ nothing_in (ledger_of rec.now) s.0 }
{
    let t = load_card(rec, s);
    let skips = t.skipcert;
    if (t.leader != 0) | (skips.0 != 0) {
        return false;
    }
    nothing_in(rec, s)
}

// One row: one with nothing in it passes, and row 0, which is unused, only so.
fn row_passes(rec: &[u64], s: Slot) -> bool
    requires { InRows rec.now s.0 }
    ensures { result ≡ row_passes (ledger_of rec.now) s.0 }
{
    if row_blank(rec, s) {
        return true;
    }
    if s.0 == 0 {
        return false;
    }
    row_fits(rec, s)
}

// Row 0 and the rows of slots 1 to 16, each by itself.
fn rows_fit(rec: &[u64]) -> bool
    requires { Headed rec.now }
    ensures { result ≡ (row_blank (ledger_of rec.now) && all_to last_slot (λ i. row_stands (ledger_of rec.now) (suc i))) }
{
    for i in 0..LAST_SLOT + 1 {
        if !row_passes(rec, Slot(i)) {
            return false;
        }
    }
    true
}

// No block, or one that reaches rule D's weights.
fn backs(rec: &[u64], s: Slot, b: u64) -> bool
    requires { Carded rec.now s.0 }
    ensures { result ≡ backs (ledger_of rec.now) s.0 b }
{
    if b == 0 {
        return true;
    }
    fallback_weights(rec, s, b)
}

// The own fallbacks of a slot, each by the votes stored there. Where the first place is empty there is none.
fn own_fits(rec: &[u64], s: Slot) -> bool
    requires { Backing rec.now s.0 }
    ensures { result ≡ own_fits (ledger_of rec.now) s.0 }
{
    let c = own_cell(rec, s);
    if c.fallback1 == 0 {
        return true;
    }
    let first = backs(rec, s, c.fallback1);
    let second = backs(rec, s, c.fallback2);
    let third = backs(rec, s, c.fallback3);
    first & (second & third)
}

// What the own fallbacks of slots 1 to 16 lean on, asked of rows whose cards are known to be right.
fn owns_fit(rec: &[u64]) -> bool
    requires { Standing rec.now }
    ensures { result ≡ all_to last_slot (λ i. own_fits (ledger_of rec.now) (suc i)) }
{
    for i in 0..LAST_SLOT {
        if !own_fits(rec, Slot(i + 1)) {
            return false;
        }
    }
    true
}

// The stakes fit, and their sum is the total.
fn stakes_fit(rec: &[u64]) -> bool
    requires { Long rec.now }
    ensures { result ≡ (stakes_fit (ledger_of rec.now).stakes (ledger_of rec.now).count && eqb (total_to (ledger_of rec.now).stakes (ledger_of rec.now).count) (ledger_of rec.now).total) }
{
    if places_in(rec) < count(rec) {
        return false;
    }
    match make_table(stakes_of(rec)) {
        Some(table) => table.total.0 == total(rec).0,
        None => false,
    }
}

// The marks of the armed windows.
fn armed_fits(rec: &[u64]) -> bool
    requires { Long rec.now }
    ensures { result ≡ all_to windows (λ w. flag (get_or (ledger_of rec.now).armed w 0)) }
{
    let mut ok = true;
    for w in 0..WINDOWS {
        ok = ok & (armed_word(rec, w) <= 1);
    }
    ok
}

// The stakes past the last node are 0.
fn rest_fits(rec: &[u64]) -> bool
    requires { Long rec.now }
    ensures { result ≡ all_to (places (ledger_of rec.now)) (λ n. ltb n (ledger_of rec.now).count || none (stake_in (ledger_of rec.now).stakes n)) }
{
    let m = count(rec);
    let places = places_in(rec);
    let mut ok = true;
    for n in 0..places {
        let w = stake(rec, Node(n));
        ok = ok & ((n < m) | (w.0 == 0));
    }
    ok
}

// Places, count, stakes, total, own number, genesis and armed windows.
fn head_fits(rec: &[u64]) -> bool
    requires { Long rec.now }
    ensures { result ≡ head_fits (ledger_of rec.now) }
{
    let sized = places_in(rec) == places_for(count(rec));
    let table = stakes_fit(rec);
    let me = own(rec);
    let node = (me.0 <= count(rec)) & (genesis(rec) != 0);
    let windows = armed_fits(rec);
    let rest = rest_fits(rec);
    sized & (table & (node & (windows & rest)))
}

// Not 17: whether the words are a node's record.
pub fn sound(rec: &[u64]) -> bool
    ensures { result ≡ sound_words rec.now }
{
    if !is_long(rec) {
        return false;
    }
    if !head_fits(rec) {
        return false;
    }
    if !rows_fit(rec) {
        return false;
    }
    owns_fit(rec)
}
