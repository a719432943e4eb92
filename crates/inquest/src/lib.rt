// The inquest: what the firms' saved records show after an incident, with nothing assumed about who ran what. All of it stands in specs/
// and proofs/, over the definitions of `rulebook` and `safety`; there is no function here.
#![tactic(auto)]

use rulebook::{Node, Slot, VoteKind};

// A line of the inquest: a vote in a firm's name, and what tells of it.
#[derive(Clone, Copy, Debug, PartialEq, Eq)]
pub struct Line {
    pub slot: Slot,
    pub node: Node,
    pub kind: VoteKind,
    pub block: u64,
    pub source: u64,
}
