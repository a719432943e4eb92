// Which votes of two ledgers differ, as lines, on the written rules.
// Definition and facts only; there is no function here.

// Which of two records has a vote.
#![tactic(auto)]

#[derive(Clone, Copy, Debug, PartialEq, Eq)]
pub enum Side {
    First,
    Second,
    Neither,
}
