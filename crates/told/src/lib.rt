// Told once, told all; what is taken is held: promises on the records that a host acts on, over what is seen of a life. All of it stands in specs/ and
// proofs/; there is no code here.

#![tactic(auto)]
