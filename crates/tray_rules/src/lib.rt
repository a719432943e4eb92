// What a tray of votes does, on the written rules.
// Definition and facts only; there is no code here.

#![tactic(auto)]
