// The node's record: words lent by the host, and the ledger that they hold. Every other crate reads and changes a
// record through these functions, and kept certificates through those of kept_certificates.
#![tactic(auto)]

ghost use Rattle.std.specs.Prelude.{◌≡◌, not, ◌+◌, ◌<◌, length, get_or, set, take, replicate, position};
ghost use Rattle.rulebook.specs.Weights.{places_for, windows, stake_in};
ghost use Rattle.rulebook.specs.Ledger.{none, no_block, places, row_at, cell_at, is_watcher, own_cell, blocks_at, is_armed, is_free, put_cell, put_card, put_blocks, put_timed_out, put_final, put_clash, put_armed};
ghost use Rattle.rulebook.specs.Rules.{find_block};
ghost use Rattle.rulebook.specs.Inputs.{keep_block};
ghost use Rattle.record.specs.Layout.{word_at, kept_at, places_in, row_start, mask_words, masks_of, row_head, record_words, Long, InSlot, InWindow, InTable, InBlocks, InKept, Placed, RowAt, BlockAt, CardAt, KeptAt, CellAt, Counted, ledger_of};
ghost use Rattle.record.specs.Spelling.{is_spelled};
ghost use Rattle.record.specs.Setting.{put_head, put_stake};

use rulebook::{Block, Cell, MOST_NODES, Node, Slot, Tally, Weight};

// "Slots 1 to 16, windows of 4".
pub const LAST_SLOT: usize = 16;

pub const WINDOWS: usize = 4;

// How many blocks of a slot are kept.
pub const MOST_BLOCKS: usize = 4;

// How many certificates of a slot are kept.
pub const MOST_CERTIFICATES: usize = 13;

// The layout: 4 numbers, the armed windows, the stakes; then a row for slot 0 and each slot: 3 words for each kept block, the
// timeout's mark, the final block, the mark of another, 5 words of the tally card, a word and two masks for each kept
// certificate, and 7 words for each node.
const ARMED_START: usize = 4;

const STAKE_START: usize = ARMED_START + WINDOWS;

const CELL_WORDS: usize = 7;

const BLOCK_WORDS: usize = 3;

const TIMEOUT_AT: usize = BLOCK_WORDS * MOST_BLOCKS;

const FINAL_AT: usize = TIMEOUT_AT + 1;

const CLASH_AT: usize = FINAL_AT + 1;

const CARD_AT: usize = CLASH_AT + 1;

const CARD_WORDS: usize = 5;

const KEPT_AT: usize = CARD_AT + CARD_WORDS;

// The most places with which a mask has one word, and the words of a mask above them.
const SMALL_PLACES: usize = 64;

const LARGE_MASK: usize = 32;

// The words of a record without any place and without masks, how many more the words of a mask take, and how many each place.
const BARE_WORDS: usize = STAKE_START + (KEPT_AT + MOST_CERTIFICATES) * (LAST_SLOT + 1);

const MASK_WORDS: usize = 2 * MOST_CERTIFICATES * (LAST_SLOT + 1);

const PLACE_WORDS: usize = 1 + CELL_WORDS * (LAST_SLOT + 1);

// The words of the least record whose masks are large.
const LARGE_WORDS: usize = BARE_WORDS + MASK_WORDS * LARGE_MASK + PLACE_WORDS * (SMALL_PLACES + 1);

// A cell without a vote.
const NO_CELL: Cell = Cell {
    notar: 0,
    skip: 0,
    fallback1: 0,
    fallback2: 0,
    fallback3: 0,
    skipfallback: 0,
    finalvote: 0,
};

// A place that keeps no block.
const NO_BLOCK: Block = Block {
    number: 0,
    parentslot: Slot(0),
    parent: 0,
};

// How many places for nodes a record has, by the number of stakes.
pub fn places_for(count: usize) -> usize
    ensures { result ≡ places_for count }
{
    if MOST_NODES < count {
        return MOST_NODES;
    }
    count
}

// How many words a signer mask has in a record of so many places.
pub fn mask_words(places: usize) -> usize
    ensures { result ≡ mask_words places }
{
    if SMALL_PLACES < places {
        return LARGE_MASK;
    }
    1
}

// How many words the host lends a node, by the number of stakes.
pub fn record_words(count: usize) -> usize
    ensures { result ≡ record_words (places_for count) }
{
    let p = places_for(count);
    BARE_WORDS + MASK_WORDS * mask_words(p) + PLACE_WORDS * p
}

// How many words a signer mask has in a record of so many words.
fn masks_of(words: usize) -> usize
    ensures { result ≡ masks_of words }
{
    if words < LARGE_WORDS {
        return 1;
    }
    LARGE_MASK
}

// How many places for nodes the words have.
pub fn places_in(rec: &[u64]) -> usize
    ensures { result ≡ places (ledger_of rec.now) }
{
    let bare = BARE_WORDS + MASK_WORDS * masks_of(rec.len());
    if rec.len() < bare {
        return 0;
    }
    (rec.len() - bare) / PLACE_WORDS
}

// Likewise of words that spell a ledger: they are not too few, which need not be asked at every row.
fn places_of(rec: &[u64]) -> usize
    requires { Long rec.now }
    ensures { result ≡ places (ledger_of rec.now) }
{
    let bare = BARE_WORDS + MASK_WORDS * masks_of(rec.len());
    (rec.len() - bare) / PLACE_WORDS
}

// Whether the words spell a ledger: they are as many as their places ask for.
pub fn is_long(rec: &[u64]) -> bool
    ensures { result ≡ is_spelled rec.now }
{
    let p = places_in(rec);
    rec.len() == BARE_WORDS + MASK_WORDS * mask_words(p) + PLACE_WORDS * p
}

// The words of a row before its cells, in a record of so many places.
fn row_head(places: usize) -> usize
    ensures { result ≡ row_head places }
{
    KEPT_AT + MOST_CERTIFICATES * (1 + 2 * mask_words(places))
}

// The first word of a slot's row.
fn row_start(rec: &[u64], s: Slot) -> usize
    requires { InSlot rec.now s.0 }
    ensures { RowAt rec.now s.0 result }
{
    let p = places_of(rec);
    STAKE_START + p + (row_head(p) + CELL_WORDS * p) * s.0
}

// The first word of a node's cell in a slot's row.
fn cell_start(rec: &[u64], s: Slot, n: Node) -> usize
    requires { Placed rec.now s.0 n.0 }
    ensures { CellAt rec.now s.0 n.0 result }
{
    row_start(rec, s) + row_head(places_of(rec)) + CELL_WORDS * n.0
}

// What the pool keeps of a node in a slot.
pub fn load_cell(rec: &[u64], s: Slot, n: Node) -> Cell
    requires { Placed rec.now s.0 n.0 }
    ensures { result ≡ cell_at (ledger_of rec.now) s.0 n.0 }
{
    let i = cell_start(rec, s, n);
    Cell {
        notar: rec[i],
        skip: rec[i + 1],
        fallback1: rec[i + 2],
        fallback2: rec[i + 3],
        fallback3: rec[i + 4],
        skipfallback: rec[i + 5],
        finalvote: rec[i + 6],
    }
}

// The block of a node's notar vote in a slot, 0 where there is none: the first word of its cell.
pub fn notar_of(rec: &[u64], s: Slot, n: Node) -> u64
    requires { Placed rec.now s.0 n.0 }
    ensures { result ≡ (cell_at (ledger_of rec.now) s.0 n.0).notar }
{
    let i = cell_start(rec, s, n);
    rec[i]
}

// Puts a cell in the place of a node's.
pub fn store_cell(rec: &mut [u64], s: Slot, n: Node, c: Cell)
    requires { Placed rec.old s.0 n.0 }
    ensures { ledger_of rec.new ≡ put_cell (ledger_of rec.old) s.0 n.0 c }
{
    let i = cell_start(rec, s, n);
    rec[i] = c.notar;
    rec[i + 1] = c.skip;
    rec[i + 2] = c.fallback1;
    rec[i + 3] = c.fallback2;
    rec[i + 4] = c.fallback3;
    rec[i + 5] = c.skipfallback;
    rec[i + 6] = c.finalvote;
}

// The first word of one of a slot's places for blocks.
fn block_start(rec: &[u64], s: Slot, n: usize) -> usize
    requires { InBlocks rec.now s.0 n }
    ensures { BlockAt rec.now s.0 n result }
{
    row_start(rec, s) + BLOCK_WORDS * n
}

// The block in one of a slot's places, with its parent; the first announced is in the first.
pub fn load_block(rec: &[u64], s: Slot, n: usize) -> Block
    requires { InBlocks rec.now s.0 n }
    ensures { result ≡ get_or (blocks_at (ledger_of rec.now) s.0) n no_block }
{
    let i = block_start(rec, s, n);
    Block {
        number: rec[i],
        parentslot: Slot(rec[i + 1] as usize),
        parent: rec[i + 2],
    }
}

// Puts a block into one of a slot's places.
fn store_block(rec: &mut [u64], s: Slot, n: usize, b: Block)
    requires { InBlocks rec.old s.0 n }
    ensures { ledger_of rec.new ≡ put_blocks (ledger_of rec.old) s.0 (set (blocks_at (ledger_of rec.old) s.0) n b) }
{
    let i = block_start(rec, s, n);
    rec[i] = b.number;
    rec[i + 1] = b.parentslot.0 as u64;
    rec[i + 2] = b.parent;
}

// The first of a slot's places that keeps no block.
fn free_place(rec: &[u64], s: Slot) -> Option<usize>
    requires { InSlot rec.now s.0 }
    ensures { result ≡ position is_free (blocks_at (ledger_of rec.now) s.0) }
{
    (0..MOST_BLOCKS)
        .map(|n| load_block(rec, s, n))
        .position(|k| k.number == 0)
}

// Keeps a block in the first free place of a slot; where there is none, nothing is kept.
pub fn keep_block(rec: &mut [u64], s: Slot, b: Block)
    requires { InSlot rec.old s.0 }
    ensures { ledger_of rec.new ≡ keep_block (ledger_of rec.old) s.0 b }
{
    if let Some(n) = free_place(rec, s) {
        store_block(rec, s, n, b);
    }
}

// The block of a number that a slot keeps, with its parent; blank where it keeps none of that number.
pub fn find_block(rec: &[u64], s: Slot, b: u64) -> Block
    requires { InSlot rec.now s.0 }
    ensures { result ≡ find_block b (blocks_at (ledger_of rec.now) s.0) }
{
    (0..MOST_BLOCKS)
        .map(|n| load_block(rec, s, n))
        .find(|k| (k.number != 0) & (k.number == b))
        .unwrap_or(NO_BLOCK)
}

// The word at a place of a slot's row, before its places for certificates.
fn row_word(rec: &[u64], s: Slot, at: usize) -> u64
    requires slot { InSlot rec.now s.0 }
    requires place { at < kept_at }
    ensures { result ≡ word_at rec.now (row_start (places_in rec.now) s.0 + at) }
{
    let i = row_start(rec, s);
    rec[i + at]
}

// Puts a word there.
fn set_row_word(rec: &mut [u64], s: Slot, at: usize, word: u64)
    requires slot { InSlot rec.old s.0 }
    requires place { at < kept_at }
    ensures { rec.new ≡ set rec.old (row_start (places_in rec.old) s.0 + at) word }
{
    let i = row_start(rec, s);
    rec[i + at] = word;
}

// The word that marks a slot's timeout, whatever stands in it.
pub fn timeout_word(rec: &[u64], s: Slot) -> u64
    requires { InSlot rec.now s.0 }
    ensures { result ≡ (row_at (ledger_of rec.now) s.0).timed_out }
{
    row_word(rec, s, TIMEOUT_AT)
}

// Whether a slot's timeout was taken.
pub fn timed_out(rec: &[u64], s: Slot) -> bool
    requires { InSlot rec.now s.0 }
    ensures { result ≡ not (none (row_at (ledger_of rec.now) s.0).timed_out) }
{
    timeout_word(rec, s) != 0
}

// Marks that a slot's timeout was taken.
pub fn mark_timed_out(rec: &mut [u64], s: Slot)
    requires { InSlot rec.old s.0 }
    ensures { ledger_of rec.new ≡ put_timed_out (ledger_of rec.old) s.0 }
{
    set_row_word(rec, s, TIMEOUT_AT, 1);
}

// The block reported final in a slot, 0 where there is none.
pub fn final_block(rec: &[u64], s: Slot) -> u64
    requires { InSlot rec.now s.0 }
    ensures { result ≡ (row_at (ledger_of rec.now) s.0).final }
{
    row_word(rec, s, FINAL_AT)
}

// Marks a block as reported final in a slot.
pub fn set_final(rec: &mut [u64], s: Slot, b: u64)
    requires { InSlot rec.old s.0 }
    ensures { ledger_of rec.new ≡ put_final (ledger_of rec.old) s.0 b }
{
    set_row_word(rec, s, FINAL_AT, b);
}

// The word that marks a slot in which another final block was reported, whatever stands in it.
pub fn clash_word(rec: &[u64], s: Slot) -> u64
    requires { InSlot rec.now s.0 }
    ensures { result ≡ (row_at (ledger_of rec.now) s.0).clash }
{
    row_word(rec, s, CLASH_AT)
}

// Marks that another final block was reported in a slot.
pub fn mark_clash(rec: &mut [u64], s: Slot)
    requires { InSlot rec.old s.0 }
    ensures { ledger_of rec.new ≡ put_clash (ledger_of rec.old) s.0 }
{
    set_row_word(rec, s, CLASH_AT, 1);
}

// The first word of a slot's tally card.
fn card_start(rec: &[u64], s: Slot) -> usize
    requires { InSlot rec.now s.0 }
    ensures { CardAt rec.now s.0 result }
{
    row_start(rec, s) + CARD_AT
}

// A slot's tally card.
pub fn load_card(rec: &[u64], s: Slot) -> Tally
    requires { InSlot rec.now s.0 }
    ensures { result ≡ (row_at (ledger_of rec.now) s.0).card }
{
    let i = card_start(rec, s);
    Tally {
        skip: Weight(rec[i]),
        finals: Weight(rec[i + 1]),
        skipcert: Weight(rec[i + 2]),
        leader: rec[i + 3],
        weight: Weight(rec[i + 4]),
    }
}

// Puts a card in the place of a slot's.
pub fn store_card(rec: &mut [u64], s: Slot, t: Tally)
    requires { InSlot rec.old s.0 }
    ensures { ledger_of rec.new ≡ put_card (ledger_of rec.old) s.0 t }
{
    let i = card_start(rec, s);
    rec[i] = t.skip.0;
    rec[i + 1] = t.finals.0;
    rec[i + 2] = t.skipcert.0;
    rec[i + 3] = t.leader;
    rec[i + 4] = t.weight.0;
}

// The first word of one of a slot's places for certificates: the block, then the words of its masks.
pub fn kept_start(rec: &[u64], s: Slot, n: usize) -> usize
    requires { InKept rec.now s.0 n }
    ensures { KeptAt rec.now s.0 n result }
{
    row_start(rec, s) + KEPT_AT + (1 + 2 * mask_words(places_of(rec))) * n
}

// The word that marks a window as armed, whatever stands in it.
pub fn armed_word(rec: &[u64], w: usize) -> u64
    requires { Long rec.now × (w < windows) }
    ensures { result ≡ get_or (ledger_of rec.now).armed w 0 }
{
    let i = ARMED_START + w;
    rec[i]
}

// Whether a slot's window is armed.
pub fn is_armed(rec: &[u64], s: Slot) -> bool
    requires { InWindow rec.now s.0 }
    ensures { result ≡ is_armed (ledger_of rec.now) s.0 }
{
    armed_word(rec, (s.0 - 1) / 4) != 0
}

// Arms a slot's window.
pub fn arm(rec: &mut [u64], s: Slot)
    requires { InWindow rec.old s.0 }
    ensures { ledger_of rec.new ≡ put_armed (ledger_of rec.old) s.0 }
{
    let i = ARMED_START + (s.0 - 1) / 4;
    rec[i] = 1;
}

// The number of nodes.
pub fn count(rec: &[u64]) -> usize
    requires { Long rec.now }
    ensures { result ≡ (ledger_of rec.now).count }
{
    rec[0] as usize
}

// The total stake.
pub fn total(rec: &[u64]) -> Weight
    requires { Long rec.now }
    ensures { result.0 ≡ (ledger_of rec.now).total }
{
    Weight(rec[1])
}

// The own number.
pub fn own(rec: &[u64]) -> Node
    requires { Long rec.now }
    ensures { result.0 ≡ (ledger_of rec.now).own }
{
    Node(rec[2] as usize)
}

// Genesis's number.
pub fn genesis(rec: &[u64]) -> u64
    requires { Long rec.now }
    ensures { result ≡ (ledger_of rec.now).genesis }
{
    rec[3]
}

// A node's stake.
pub fn stake(rec: &[u64], n: Node) -> Weight
    requires { InTable rec.now n.0 }
    ensures { result.0 ≡ stake_in (ledger_of rec.now).stakes n.0 }
{
    let i = STAKE_START + n.0;
    Weight(rec[i])
}

// The stakes of the record's nodes, one a node.
pub fn stakes_of(rec: &[u64]) -> &[u64]
    requires { Counted rec.now }
    ensures { result.now ≡ take (ledger_of rec.now).count (ledger_of rec.now).stakes }
{
    let end = STAKE_START + count(rec);
    &rec[STAKE_START..end]
}

// Whether the node has no own number: the one after the last node's stands for none.
pub fn is_watcher(rec: &[u64]) -> bool
    requires { Long rec.now }
    ensures { result ≡ is_watcher (ledger_of rec.now) }
{
    own(rec).0 == count(rec)
}

// The own votes in a slot: none where the own number has no place, as a watcher's has not.
pub fn own_cell(rec: &[u64], s: Slot) -> Cell
    requires { InSlot rec.now s.0 }
    ensures { result ≡ own_cell (ledger_of rec.now) s.0 }
{
    let n = own(rec);
    if n.0 < places_in(rec) {
        return load_cell(rec, s, n);
    }
    NO_CELL
}

// Forgets everything.
pub fn clear(rec: &mut [u64])
    ensures { rec.new ≡ replicate (length rec.old) 0 }
{
    rec.fill(0);
}

// Puts in the number of nodes, the total stake, the own number and genesis's number.
pub fn set_head(rec: &mut [u64], count: usize, total: Weight, own: Node, genesis: u64)
    requires { Long rec.old }
    ensures { ledger_of rec.new ≡ put_head (ledger_of rec.old) count total.0 own.0 genesis }
{
    rec[0] = count as u64;
    rec[1] = total.0;
    rec[2] = own.0 as u64;
    rec[3] = genesis;
}

// Puts in a node's stake.
pub fn set_stake(rec: &mut [u64], n: Node, w: Weight)
    requires { InTable rec.old n.0 }
    ensures { ledger_of rec.new ≡ put_stake (ledger_of rec.old) n.0 w.0 }
{
    let i = STAKE_START + n.0;
    rec[i] = w.0;
}
