// The ring never hangs with a fifth stopped, over what is seen of lives. All of it stands in specs/ and proofs/, over `stopped`, `stopped_mail` and `seen`;
// there is no code here.

#![tactic(auto)]
