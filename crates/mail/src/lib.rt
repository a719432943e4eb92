// What is fed to a node is enough: votes that honest nodes cast, timeouts, and blocks by the host's policy all end where the rules need them;
// so a ring that is fed again and again decides every slot. All of it stands in specs/ and proofs/, over the definitions of `rulebook`,
// `safety` and `progress`; there is no code here.

#![tactic(auto)]
