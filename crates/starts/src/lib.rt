// The starts of a node and of a watcher.
#![tactic(auto)]

ghost use Rattle.std.specs.Prelude.{◌≡◌};
ghost use Rattle.rulebook.specs.Ledger.{fresh};
ghost use Rattle.record.specs.Layout.{ledger_of};
ghost use Rattle.starts.specs.Starting.{BegunOf, SetUp, StartOf, WatchOf};

use record::{clear, record_words, set_head, set_stake};
use rulebook::{Node, Refusal, Weight};
use stakes::make_table;

// A fresh node's words, whatever stood there.
fn set_up(rec: &mut [u64], stakes: &[u64], total: Weight, own: Node, genesis: u64)
    requires { SetUp rec.old stakes.now total.0 }
    ensures { ledger_of rec.new ≡ fresh stakes.now own.0 genesis }
{
    clear(rec);
    set_head(rec, stakes.len(), total, own, genesis);
    for (n, &stake) in stakes.iter().enumerate() {
        set_stake(rec, Node(n), Weight(stake));
    }
}

// Makes lent words the record of a fresh node, whose own number may be odd: 17 for the length, then 1; a refusal leaves the
// words.
fn begin(rec: &mut [u64], stakes: &[u64], own: Node, odd: bool, genesis: u64) -> Result<(), Refusal>
    ensures { BegunOf rec.old stakes.now own.0 odd genesis result rec.new }
{
    if rec.len() != record_words(stakes.len()) {
        return Err(Refusal::BadRecord);
    }
    let table = make_table(stakes).ok_or(Refusal::BadSizes)?;
    if odd | (genesis == 0) {
        return Err(Refusal::BadSizes);
    }
    set_up(rec, stakes, table.total, own, genesis);
    Ok(())
}

// Makes lent words the record of a fresh node.
pub fn start(rec: &mut [u64], stakes: &[u64], own: Node, genesis: u64) -> Result<(), Refusal>
    ensures { StartOf rec.old stakes.now own.0 genesis result rec.new }
{
    begin(rec, stakes, own, stakes.len() <= own.0, genesis)
}

// Makes lent words the record of a fresh watcher: the number after the last node's stands for no own number.
pub fn watch(rec: &mut [u64], stakes: &[u64], genesis: u64) -> Result<(), Refusal>
    ensures { WatchOf rec.old stakes.now genesis result rec.new }
{
    begin(rec, stakes, Node(stakes.len()), false, genesis)
}
