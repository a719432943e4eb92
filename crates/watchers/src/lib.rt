// Watchers: beside a voting node a watcher keeps the same pool, and it tells of no vote. Facts about the written rules only;
// there is no code here.

#![tactic(auto)]
