// Blocks are final, over what is seen of lives: where a window is led well its blocks are told of, read and proved at every honest node. All of it
// stands in specs/ and proofs/, over `finals`, `seen` and `calls`; there is no code here.

#![tactic(auto)]
