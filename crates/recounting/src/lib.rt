// The recount of a slot's stored votes, and how a stored vote changes it: laws of the tally card over the written rules; there is
// no code here.

#![tactic(auto)]
