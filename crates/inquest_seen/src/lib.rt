// The inquest over the words that firms hand in, and over what is seen of lives. All of it stands in specs/ and proofs/, over `inquest`, `standing` and
// `seen`; there is no code here.

#![tactic(auto)]
