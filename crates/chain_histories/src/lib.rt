// Histories of one chain, computed: rings that meet its premises, and what happens where a premise fails. All of it stands in specs/ and
// proofs/; there is no code here.

#![tactic(auto)]
