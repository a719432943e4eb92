// What the own votes let rules C to E still cast.
#![tactic(auto)]

ghost use Rattle.std.specs.Prelude.{◌≡◌};
ghost use Rattle.rulebook.specs.Rules.{window_open, may_final, may_fallback, may_skip_fallback};
ghost use Rattle.record.specs.Layout.{InWindow, ledger_of};

use cells::has_fallback;
use record::own_cell;
use rulebook::{Cell, Slot};

// C: an own notar vote, no own fallback of either kind, no own final.
#[tactic(auto, unfolding(rulebook::specs::Rules::may_final))]
pub fn may_final(c: Cell) -> bool
    ensures { result ≡ may_final c }
{
    ((c.notar != 0) & (c.finalvote == 0)) & ((c.fallback1 == 0) & (c.skipfallback == 0))
}

// D: no own final, notar-fallback b not cast.
#[tactic(auto, unfolding(rulebook::specs::Rules::may_fallback))]
pub fn may_fallback(c: Cell, b: u64) -> bool
    ensures { result ≡ may_fallback c b }
{
    let cast = has_fallback(b, c);
    (c.finalvote == 0) & !cast
}

// E: no own final, skip-fallback not cast.
#[tactic(auto, unfolding(rulebook::specs::Rules::may_skip_fallback))]
pub fn may_skip_fallback(c: Cell) -> bool
    ensures { result ≡ may_skip_fallback c }
{
    (c.finalvote == 0) & (c.skipfallback == 0)
}

// Whether some slot of the window of s is without an own initial vote.
pub fn window_open(rec: &[u64], s: Slot) -> bool
    requires { InWindow rec.now s.0 }
    ensures { result ≡ window_open (ledger_of rec.now) s.0 }
{
    let first = (s.0 - 1) / 4 * 4 + 1;
    (0..4).any(|i| {
        let c = own_cell(rec, Slot(first + i));
        (c.notar == 0) & (c.skip == 0)
    })
}
