// Laws of the written rules, for the crates that cite them. There is no code here.

#![tactic(auto)]
