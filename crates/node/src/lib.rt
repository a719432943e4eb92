// The node: one input judged, stored, and the rules run until none applies; its records stand at the front of the outbox.
#![tactic(auto)]

ghost use Rattle.std.specs.Prelude.{◌≡◌};
ghost use Rattle.rulebook.specs.Run.{run};
ghost use Rattle.rulebook.specs.Inputs.{intake};
ghost use Rattle.record.specs.Layout.{ledger_of};
ghost use Rattle.voter.specs.Voting.{Onward};
ghost use Rattle.node.specs.Stepping.{StepOf, Taking};

use intake::take_in;
use rulebook::{Input, Refusal};
use run::settle;
use soundness::sound;
use verdicts::judge_input;

// The least number of words of an outbox: 160 records of three words.
const OUTBOX_WORDS: usize = 480;

// Takes an input that is not refused, and runs the rules until none applies.
fn act(rec: &mut [u64], outbox: &mut [u64], i: Input) -> usize
    requires { Taking rec.old outbox.old i }
    ensures { Onward rec.old outbox.old 0 rec.new outbox.new result (run (intake (ledger_of rec.old) i)) }
{
    let made = take_in(rec, outbox, i);
    settle(rec, outbox, made)
}

// One input: refused with 17, 9 or as its kind has it, with all memory as found; or taken.
pub fn step(rec: &mut [u64], outbox: &mut [u64], input: Input) -> Result<usize, Refusal>
    ensures { StepOf rec.old outbox.old input result rec.new outbox.new }
{
    if !sound(rec) {
        return Err(Refusal::BadRecord);
    }
    if outbox.len() < OUTBOX_WORDS {
        return Err(Refusal::NoRoom);
    }
    judge_input(rec, input)?;
    Ok(act(rec, outbox, input))
}
