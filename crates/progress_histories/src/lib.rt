// Histories of progress, computed: what hangs where a premise is left out, and rings that meet them all. All of it stands in specs/ and
// proofs/; there is no code here.

#![tactic(auto)]
