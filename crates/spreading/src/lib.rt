// Finality spreads by what honest nodes write; what is never answered 8. Statements and proofs alone.

#![tactic(auto)]
