// Whether a host may announce a block now, by the policy for blocks: 17, then what the block itself would be refused with, then a slot's
// first block as it comes and a further one with rule D's weights.
#![tactic(auto)]

ghost use Rattle.std.specs.Prelude.{◌≡◌, ◌||◌};
ghost use Rattle.rulebook.specs.Ledger.{blocks_at, all_blocks, is_free};
ghost use Rattle.rulebook.specs.Rules.{fallback_weights};
ghost use Rattle.record.specs.Layout.{InSlot, ledger_of};
ghost use Rattle.pool.specs.Weighing.{Carded};
ghost use Rattle.announcing.specs.Asked.{announced_on};

use candidates::fallback_weights;
use record::{MOST_BLOCKS, load_block};
use rulebook::{Block, Refusal, Slot};
use soundness::sound;
use verdicts::block_verdict;

// No block of the slot is kept.
fn keeps_none(rec: &[u64], s: Slot) -> bool
    requires { InSlot rec.now s.0 }
    ensures { result ≡ all_blocks is_free (blocks_at (ledger_of rec.now) s.0) }
{
    (0..MOST_BLOCKS).all(|n| load_block(rec, s, n).number == 0)
}

// The slot's first block, or a further one with rule D's weights.
fn is_due(rec: &[u64], s: Slot, b: u64) -> bool
    requires { Carded rec.now s.0 }
    ensures { result ≡ (all_blocks is_free (blocks_at (ledger_of rec.now) s.0) || fallback_weights (ledger_of rec.now) s.0 b) }
{
    keeps_none(rec, s) || fallback_weights(rec, s, b)
}

// Whether announcing block b in slot s is right now: 17, then 3, 5, 11, 7 and 8 as for the block itself.
pub fn may_announce(rec: &[u64], s: Slot, b: Block) -> Result<bool, Refusal>
    ensures { result ≡ announced_on rec.now s.0 b }
{
    if !sound(rec) {
        return Err(Refusal::BadRecord);
    }
    block_verdict(rec, s, b)?;
    Ok(is_due(rec, s, b.number))
}
