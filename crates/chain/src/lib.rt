// One chain: over many slots honest nodes that keep the written rules never leave two final blocks of which neither is the other or its
// ancestor. All of it stands in specs/ and proofs/, over the definitions of `rulebook` and `safety`; there is no code here.

#![tactic(auto)]
