// A tray: a run of votes taken in one call, each as if it came alone; 17 and 9 are tested once. Who names blocks in the slots before windows is
// counted once, and kept in mind from vote to vote.
#![tactic(auto)]

ghost use Rattle.std.specs.Prelude.{◌≡◌, length, get_or};
ghost use Rattle.rulebook.specs.Rules.{state_of};
ghost use Rattle.rulebook.specs.Run.{run};
ghost use Rattle.rulebook.specs.Votes.{store_vote};
ghost use Rattle.rulebook.specs.Messages.{vote_of};
ghost use Rattle.record.specs.Layout.{ledger_of};
ghost use Rattle.looks.specs.Looks.{Bounds};
ghost use Rattle.voter.specs.Outbox.{records_in};
ghost use Rattle.voter.specs.Voting.{Onward};
ghost use Rattle.trays.specs.Lent.{TrayOf, Serving, Taking, VoteServed, Ready, AllServed};

use inputs::vote_of;
use looks::{first_looks, note_vote};
use rulebook::{Node, Refusal, Slot, Vote};
use run::settle_with;
use soundness::sound;
use storing::store_vote;
use verdicts::vote_verdict;

// The least number of words of an outbox: 160 records of three words.
const OUTBOX_WORDS: usize = 480;

// The vote that four words of the run spell.
fn vote_in(words: &[u64]) -> Vote
    requires { length words.now ≡ 4 }
    ensures { result ≡ vote_of (get_or words.now 0 0) (get_or words.now 1 0) (get_or words.now 2 0) (get_or words.now 3 0) }
{
    vote_of(
        words[0],
        Node(words[1] as usize),
        Slot(words[2] as usize),
        words[3],
    )
}

// Takes a vote that nothing refuses; its records stand behind the first `made`.
fn take_vote(rec: &mut [u64], outbox: &mut [u64], looks: &mut [u64], made: usize, v: Vote) -> usize
    requires { Taking rec.old outbox.old made v × Bounds (ledger_of rec.old) looks.old }
    ensures { Bounds (ledger_of rec.new) looks.new × Onward rec.old outbox.old made rec.new outbox.new result (run (state_of (store_vote (ledger_of rec.old) v.slot.0 v.node.0 v.kind v.block) (records_in outbox.old made))) }
{
    note_vote(rec, looks, v.slot, v.node, v.kind);
    store_vote(rec, v.slot, v.node, v.kind, v.block);
    settle_with(rec, outbox, made, looks)
}

// One vote: refused with record and outbox as found, or taken; answers how many records stand in the outbox then.
fn serve_vote(
    rec: &mut [u64],
    outbox: &mut [u64],
    looks: &mut [u64],
    made: usize,
    v: Vote,
) -> Result<usize, Refusal>
    requires { Serving rec.old outbox.old made × Bounds (ledger_of rec.old) looks.old }
    ensures { Bounds (ledger_of rec.new) looks.new × VoteServed rec.old outbox.old made v rec.new outbox.new result }
{
    vote_verdict(rec, v)?;
    Ok(take_vote(rec, outbox, looks, made, v))
}

// Each whole vote in its order, and its number in the answer buffer; answers the number of records of all together.
fn serve_votes(rec: &mut [u64], outbox: &mut [u64], votes: &[u64], answers: &mut [u64]) -> usize
    requires { Ready rec.old outbox.old votes.now answers.old }
    ensures { AllServed rec.old outbox.old votes.now answers.old rec.new outbox.new answers.new result }
{
    let mut looks = first_looks(rec);
    let mut made = 0;
    for (i, words) in votes.chunks_exact(4).enumerate() {
        let served = serve_vote(rec, outbox, &mut looks, made, vote_in(words));
        made = served.unwrap_or(made);
        answers[i] = served.map_or_else(u64::from, |_| 0);
    }
    made
}

// A run of votes, four words each, with one answer per vote: refused with 17, 9 or 12 and all memory as found, or each vote is
// answered and taken as if it came alone.
pub fn tray(
    rec: &mut [u64],
    outbox: &mut [u64],
    votes: &[u64],
    answers: &mut [u64],
) -> Result<usize, Refusal>
    ensures { TrayOf rec.old outbox.old votes.now answers.old result rec.new outbox.new answers.new }
{
    if !sound(rec) {
        return Err(Refusal::BadRecord);
    }
    if outbox.len() < OUTBOX_WORDS {
        return Err(Refusal::NoRoom);
    }
    if answers.len() < votes.len() / 4 {
        return Err(Refusal::NoRoom);
    }
    if votes.len() % 4 != 0 {
        return Err(Refusal::BadLength);
    }
    Ok(serve_votes(rec, outbox, votes, answers))
}
