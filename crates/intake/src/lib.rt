// What an accepted input stores in the record, and casts before the rules run.
#![tactic(auto)]

ghost use Rattle.rulebook.specs.Inputs.{time_out, intake};
ghost use Rattle.record.specs.Layout.{ledger_of};
ghost use Rattle.voter.specs.Voting.{CastingAt, Onward};
ghost use Rattle.intake.specs.Taking.{Taking};

use record::{keep_block, mark_timed_out, own_cell};
use rulebook::{Input, Slot};
use storing::store_vote;
use voter::{cast_skips, no_initial};

// Takes a timeout: it is kept, and a slot without an own initial vote has its window skipped.
fn time_out(rec: &mut [u64], outbox: &mut [u64], s: Slot) -> usize
    requires { CastingAt rec.old outbox.old 0 s.0 }
    ensures { Onward rec.old outbox.old 0 rec.new outbox.new result (time_out (ledger_of rec.old) s.0) }
{
    let idle = no_initial(own_cell(rec, s));
    mark_timed_out(rec, s);
    if idle {
        return cast_skips(rec, outbox, 0, s);
    }
    0
}

// Takes an input that no test refuses; answers how many records it made.
pub fn take_in(rec: &mut [u64], outbox: &mut [u64], input: Input) -> usize
    requires { Taking rec.old outbox.old input }
    ensures { Onward rec.old outbox.old 0 rec.new outbox.new result (intake (ledger_of rec.old) input) }
{
    match input {
        Input::Vote(v) => {
            store_vote(rec, v.slot, v.node, v.kind, v.block);
            0
        }
        Input::Block(s, b) => {
            keep_block(rec, s, b);
            0
        }
        Input::Timeout(s) => time_out(rec, outbox, s),
        Input::Look => 0,
    }
}
