// Progress without clocks: once the mail is in, every slot is decided and every window armed at all honest nodes. All of it stands in specs/
// and proofs/, over the definitions of `rulebook`, `settling` and `safety`; there is no code here.

#![tactic(auto)]
