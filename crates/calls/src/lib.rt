// Calls, lives made of them, and that they are seen: no code of its own.

#![tactic(auto)]
