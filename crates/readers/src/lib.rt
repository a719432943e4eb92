// What a host asks of a record: a slot's final block, whether its window is armed, a node's stored votes in it, its kept blocks, its
// marks, and what its votes weigh for a block; and whose record it is.
#![tactic(auto)]

ghost use Rattle.std.specs.Prelude.{◌≡◌};
ghost use Rattle.readers.specs.Asked.{final_on, armed_on, votes_on, blocks_kept, blocks_on, marks_kept, marks_on, head_kept, head_on};
ghost use Rattle.readers.specs.Weighed.{missing_d, Light, weights_kept, weights_on};
ghost use Rattle.record.specs.Layout.{Long, InSlot};
ghost use Rattle.pool.specs.Weighing.{Carded};

use cards::asked;
use kinds::not_in_table;
use pool::weight_of;
use record::{
    clash_word, count, final_block, genesis, is_armed, load_block, load_cell, own, timeout_word,
    total,
};
use rulebook::{Block, Cell, Node, Refusal, Slot, Weight, Who};
use soundness::sound;
use thresholds::Threshold;

// What stands in a slot's four places for blocks, in the order in which they were announced.
#[derive(Clone, Copy, Debug, PartialEq, Eq)]
pub struct KeptBlocks {
    pub first: Block,
    pub second: Block,
    pub third: Block,
    pub fourth: Block,
}

// A slot's two marks: its timeout was taken, another final block was reported; 1 or 0 each.
#[derive(Clone, Copy, Debug, PartialEq, Eq)]
pub struct SlotMarks {
    pub timedout: u64,
    pub clash: u64,
}

// Whose record it is, and of which ring: the own number, how many nodes, all their stake, the number of genesis.
#[derive(Clone, Copy, Debug, PartialEq, Eq)]
pub struct RecordHead {
    pub own: Node,
    pub nodes: usize,
    pub stake: Weight,
    pub genesis: u64,
}

// What a slot's stored votes weigh for a block: its notar votes, those who count in its notar-fallback certificate, the slot's skip votes;
// and what is missing to rule D's weights.
#[derive(Clone, Copy, Debug, PartialEq, Eq)]
pub struct BlockWeights {
    pub notar: Weight,
    pub fallback: Weight,
    pub skip: Weight,
    pub missing: Weight,
}

// The final block of a slot: 17, then 3.
pub fn read_final(rec: &[u64], s: Slot) -> Result<u64, Refusal>
    ensures { result ≡ final_on rec.now s.0 }
{
    asked(rec, s)?;
    Ok(final_block(rec, s))
}

// Whether a slot's window is armed: 17, then 3.
pub fn read_armed(rec: &[u64], s: Slot) -> Result<bool, Refusal>
    ensures { result ≡ armed_on rec.now s.0 }
{
    asked(rec, s)?;
    Ok(is_armed(rec, s))
}

// A node's stored votes in a slot: 17, then 3, then 2.
pub fn read_votes(rec: &[u64], s: Slot, n: Node) -> Result<Cell, Refusal>
    ensures { result ≡ votes_on rec.now s.0 n.0 }
{
    asked(rec, s)?;
    if not_in_table(count(rec), n) {
        return Err(Refusal::BadNode);
    }
    Ok(load_cell(rec, s, n))
}

// A slot's kept blocks with their parents: 17, then 3.
pub fn read_blocks(rec: &[u64], s: Slot) -> Result<KeptBlocks, Refusal>
    ensures { result ≡ blocks_on rec.now s.0 }
{
    asked(rec, s)?;
    Ok(load_blocks(rec, s))
}

// The blocks in a slot's four places.
#[tactic(auto, unfolding(crate::specs::Asked::blocks_kept))]
fn load_blocks(rec: &[u64], s: Slot) -> KeptBlocks
    requires { InSlot rec.now s.0 }
    ensures { result ≡ blocks_kept rec.now s.0 }
{
    KeptBlocks {
        first: load_block(rec, s, 0),
        second: load_block(rec, s, 1),
        third: load_block(rec, s, 2),
        fourth: load_block(rec, s, 3),
    }
}

// A slot's marks: 17, then 3.
pub fn read_marks(rec: &[u64], s: Slot) -> Result<SlotMarks, Refusal>
    ensures { result ≡ marks_on rec.now s.0 }
{
    asked(rec, s)?;
    Ok(load_marks(rec, s))
}

// A slot's two marks.
#[tactic(auto, unfolding(crate::specs::Asked::marks_kept))]
fn load_marks(rec: &[u64], s: Slot) -> SlotMarks
    requires { InSlot rec.now s.0 }
    ensures { result ≡ marks_kept rec.now s.0 }
{
    SlotMarks {
        timedout: timeout_word(rec, s),
        clash: clash_word(rec, s),
    }
}

// Whose record it is, and of which ring: 17.
pub fn read_head(rec: &[u64]) -> Result<RecordHead, Refusal>
    ensures { result ≡ head_on rec.now }
{
    if !sound(rec) {
        return Err(Refusal::BadRecord);
    }
    Ok(load_head(rec))
}

// The four numbers of a record's head.
#[tactic(auto, unfolding(crate::specs::Asked::head_kept))]
fn load_head(rec: &[u64]) -> RecordHead
    requires { Long rec.now }
    ensures { result ≡ head_kept rec.now }
{
    RecordHead {
        own: own(rec),
        nodes: count(rec),
        stake: total(rec),
        genesis: genesis(rec),
    }
}

// What the votes of a slot weigh for a block: 17, then 3, then 5.
pub fn read_weights(rec: &[u64], s: Slot, b: u64) -> Result<BlockWeights, Refusal>
    ensures { result ≡ weights_on rec.now s.0 b }
{
    asked(rec, s)?;
    if b == 0 {
        return Err(Refusal::BadBlock);
    }
    Ok(load_weights(rec, s, b))
}

// The four weights of a block in a slot.
fn load_weights(rec: &[u64], s: Slot, b: u64) -> BlockWeights
    requires { Carded rec.now s.0 }
    ensures { result ≡ weights_kept rec.now s.0 b }
{
    let notar = weight_of(rec, s, Who::Notar(b));
    let fallback = weight_of(rec, s, Who::NotarOrFallback(b));
    let skip = weight_of(rec, s, Who::Skip);
    BlockWeights {
        notar,
        fallback,
        skip,
        missing: missing_to_d(notar, skip, total(rec)),
    }
}

// The least further stake with which a block would have rule D's weights: to 40, or to 20 and with skip to 60, whichever is less.
#[tactic(auto, unfolding(crate::specs::Weighed::missing_d))]
fn missing_to_d(notar: Weight, skip: Weight, total: Weight) -> Weight
    requires { Light total.0 notar.0 skip.0 }
    ensures { result.0 ≡ missing_d total.0 notar.0 skip.0 }
{
    let to_forty = Threshold::FORTY.missing(notar, total);
    let to_twenty = Threshold::TWENTY.missing(notar, total);
    let to_sixty = Threshold::SIXTY.missing(Weight(skip.0 + notar.0), total);
    to_forty.min(to_twenty.max(to_sixty))
}
