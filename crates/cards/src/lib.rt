// A slot asked of a record, and its tally card.
#![tactic(auto)]

ghost use Rattle.std.specs.Prelude.{◌≡◌};
ghost use Rattle.cards.specs.Asked.{asked_on, card_on};

use kinds::slot_ok;
use record::load_card;
use rulebook::{Refusal, Slot, Tally};
use soundness::sound;

// Whether a slot may be asked of words: 17 where they are no record, then 3.
#[tactic(auto, unfolding(crate::specs::Asked::asked_on, rulebook::specs::Tools::whenever))]
pub fn asked(rec: &[u64], s: Slot) -> Result<(), Refusal>
    ensures { result ≡ asked_on rec.now s.0 }
{
    if !sound(rec) {
        return Err(Refusal::BadRecord);
    }
    if !slot_ok(s) {
        return Err(Refusal::BadSlot);
    }
    Ok(())
}

// The tally card of a slot: 17, then 3.
pub fn read_card(rec: &[u64], s: Slot) -> Result<Tally, Refusal>
    ensures { result ≡ card_on rec.now s.0 }
{
    asked(rec, s)?;
    Ok(load_card(rec, s))
}
