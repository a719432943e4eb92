// A host that dies and starts again, over what is seen of lives: what a restarted node knows of its own votes, the order of storing and sending, and what
// breaks in the other order. All of it stands in specs/ and proofs/, over `seen` and `calls`; there is no code here.

#![tactic(auto)]
