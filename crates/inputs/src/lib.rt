// The inputs that a host's numbers stand for.
#![tactic(auto)]

ghost use Rattle.std.specs.Prelude.{◌≡◌};
ghost use Rattle.rulebook.specs.Messages.{vote_of};
ghost use Rattle.inputs.specs.Inputs.{vote_input, block_input, timeout_input};

use rulebook::{Block, Input, Node, Slot, Vote, VoteKind};

// The vote of a kind's number, a node, a slot and a block.
#[tactic(auto, unfolding(rulebook::specs::Messages::vote_of))]
pub fn vote_of(kind: u64, node: Node, slot: Slot, block: u64) -> Vote
    ensures { result ≡ vote_of kind node.0 slot.0 block }
{
    Vote {
        kind: VoteKind::from(kind),
        node,
        slot,
        block,
    }
}

// Another node's vote.
pub fn vote_input(kind: u64, node: Node, slot: Slot, block: u64) -> Input
    ensures { result ≡ vote_input kind node.0 slot.0 block }
{
    Input::Vote(vote_of(kind, node, slot, block))
}

// A block with its parent.
pub fn block_input(slot: Slot, number: u64, parentslot: Slot, parent: u64) -> Input
    ensures { result ≡ block_input slot.0 number parentslot.0 parent }
{
    Input::Block(
        slot,
        Block {
            number,
            parentslot,
            parent,
        },
    )
}

// A slot's timeout.
pub fn timeout_input(slot: Slot) -> Input
    ensures { result ≡ timeout_input slot.0 }
{
    Input::Timeout(slot)
}
