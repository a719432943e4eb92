// Nodes and watchers that look on: in whatever order the same was accepted they hold the same, and what they tell and show lies on the one chain. Statements and
// proofs alone.

#![tactic(auto)]
