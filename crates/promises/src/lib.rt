// The customer's sentences over the contracts of the public operations: no code of its own.

#![tactic(auto)]
