// Sentences with "exactly" in them, at the face: one stake table, what is written and read back. All of it stands in specs/ and proofs/;
// there is no code here.

#![tactic(auto)]
