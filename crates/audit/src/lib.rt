// The 17 test of a slot's votes: every cell in range, and the tally card what a recount gives. One pass over the cells tests them
// and sums all that the card is held to. Only where no block has more than all the others together are others looked at.
#![tactic(auto)]

ghost use Rattle.std.specs.Prelude.{◌≡◌, true, ◌&&◌, ◌+◌, ◌≤◌, ◌^◌, eqb};
ghost use Rattle.rulebook.specs.Tools.{part};
ghost use Rattle.rulebook.specs.Weights.{stake_in};
ghost use Rattle.rulebook.specs.Ledger.{cell_at};
ghost use Rattle.rulebook.specs.Cards.{most, leader};
ghost use Rattle.rulebook.specs.WellFormed.{in_order, cell_fits, cell_blank, cells_fit, card_fits};
ghost use Rattle.record.specs.Layout.{ledger_of};
ghost use Rattle.pool.specs.Weighing.{Weighing};
ghost use Rattle.audit.specs.Summing.{fallbacks_fit, plain, no_sums, with_cell, sums_to, Room, Adding, Summed, Auditing};

use record::{count, load_card, load_cell, stake};
use rivals::is_led;
use rulebook::{Cell, Node, Slot, Tally, Weight};

// What one pass over cells finds: whether all fit, and the stake of skip, of final, of a skip certificate, of any notar vote and
// of the notar votes for the block that the card names.
#[derive(Clone, Copy)]
pub struct Sums {
    pub fits: bool,
    pub skip: Weight,
    pub finals: Weight,
    pub skipcert: Weight,
    pub any: Weight,
    pub lead: Weight,
}

// Two places for blocks: the later is filled only after the earlier, and not with the same number.
pub fn in_order(x: u64, y: u64) -> bool
    ensures { result ≡ in_order x y }
{
    (y == 0) | ((x != 0) & (x != y))
}

// Fallback blocks from the front and none twice.
fn fallbacks_fit(c: Cell) -> bool
    ensures { result ≡ fallbacks_fit c }
{
    let second = in_order(c.fallback1, c.fallback2);
    let third = in_order(c.fallback2, c.fallback3);
    second & (third & ((c.fallback3 == 0) | (c.fallback1 != c.fallback3)))
}

// Flags, one initial vote, fallback blocks that fit.
fn cell_fits(c: Cell) -> bool
    ensures { result ≡ cell_fits c }
{
    let flags = (c.skip <= 1) & ((c.skipfallback <= 1) & (c.finalvote <= 1));
    let one = (c.notar == 0) | (c.skip == 0);
    let fallbacks = fallbacks_fit(c);
    flags & (one & fallbacks)
}

// Nothing in it.
fn cell_blank(c: Cell) -> bool
    ensures { result ≡ cell_blank c }
{
    let initial = (c.notar == 0) & (c.skip == 0);
    let fallbacks = (c.fallback1 == 0) & ((c.fallback2 == 0) & (c.fallback3 == 0));
    initial & (fallbacks & ((c.skipfallback == 0) & (c.finalvote == 0)))
}

// A weight with a node's stake, where the node counts.
fn added(sum: Weight, counts: bool, w: Weight) -> Weight
    requires { sum.0 + w.0 ≤ 2 ^ 48 }
    ensures { result.0 ≡ sum.0 + part counts w.0 }
{
    if counts {
        return Weight(sum.0 + w.0);
    }
    sum
}

// The sums with one cell more, of a node of stake w; b is the block that the card names.
fn with_cell(sums: Sums, c: Cell, w: Weight, b: u64) -> Sums
    requires { Room sums w.0 }
    ensures { result ≡ with_cell sums c w.0 b }
{
    let skip = sums.skip;
    let finals = sums.finals;
    let skipcert = sums.skipcert;
    let any = sums.any;
    let lead = sums.lead;
    let here = cell_fits(c);
    let more_skip = added(skip, c.skip != 0, w);
    let more_finals = added(finals, c.finalvote != 0, w);
    let more_skipcert = added(skipcert, (c.skip != 0) | (c.skipfallback != 0), w);
    let more_any = added(any, c.notar != 0, w);
    let more_lead = added(lead, (c.notar != 0) & (c.notar == b), w);
    Sums {
        fits: sums.fits & here,
        skip: more_skip,
        finals: more_finals,
        skipcert: more_skipcert,
        any: more_any,
        lead: more_lead,
    }
}

// Likewise of a plain cell: it adds nothing to skip and a skip certificate, and less is to be asked of it.
fn with_plain(sums: Sums, c: Cell, w: Weight, b: u64) -> Sums
    requires { Room sums w.0 × (plain c ≡ true) }
    ensures { result ≡ with_cell sums c w.0 b }
{
    let skip = sums.skip;
    let finals = sums.finals;
    let skipcert = sums.skipcert;
    let any = sums.any;
    let lead = sums.lead;
    let more_finals = added(finals, c.finalvote != 0, w);
    let more_any = Weight(any.0 + w.0);
    let more_lead = added(lead, c.notar == b, w);
    let second = in_order(c.fallback1, c.fallback2);
    Sums {
        fits: sums.fits & ((c.finalvote <= 1) & second),
        skip,
        finals: more_finals,
        skipcert,
        any: more_any,
        lead: more_lead,
    }
}

// The sums with a node's cell in a slot. Most are plain, and a blank one changes nothing. The stake is read where it is added.
fn with_node(rec: &[u64], s: Slot, n: Node, b: u64, sums: Sums) -> Sums
    requires { Adding rec.now s.0 n.0 sums }
    ensures { result ≡ with_cell sums (cell_at (ledger_of rec.now) s.0 n.0) (stake_in (ledger_of rec.now).stakes n.0) b }
{
    let c = load_cell(rec, s, n);
    if c.notar != 0 {
        if (c.skip | (c.skipfallback | c.fallback3)) == 0 {
            return with_plain(sums, c, stake(rec, n), b);
        }
    }
    if cell_blank(c) {
        return sums;
    }
    with_cell(sums, c, stake(rec, n), b)
}

// The sums of no cell.
fn no_sums() -> Sums
    ensures { result ≡ no_sums }
{
    Sums {
        fits: true,
        skip: Weight(0),
        finals: Weight(0),
        skipcert: Weight(0),
        any: Weight(0),
        lead: Weight(0),
    }
}

// The sums of all cells of a slot.
fn sums_of(rec: &[u64], s: Slot, b: u64) -> Sums
    requires { Weighing rec.now s.0 }
    ensures { result ≡ sums_to (ledger_of rec.now) s.0 b (ledger_of rec.now).count }
{
    let voters = count(rec);
    let mut sums = no_sums();
    for n in 0..voters {
        sums = with_node(rec, s, Node(n), b, sums);
    }
    sums
}

// Whether the card's leader leads the slot at the card's weight.
fn leader_fits(rec: &[u64], s: Slot, t: Tally, sums: Sums) -> bool
    requires { Summed rec.now s.0 t.leader sums }
    ensures { result ≡ (eqb t.leader (leader (ledger_of rec.now) s.0) && eqb t.weight.0 (most (ledger_of rec.now) s.0)) }
{
    let b = t.leader;
    let v = t.weight;
    let w = sums.lead;
    let any = sums.any;
    if b == 0 {
        return (v.0 == 0) & (any.0 == 0);
    }
    if (v.0 == 0) | (w.0 != v.0) {
        return false;
    }
    if any.0 < w.0 + w.0 {
        return true;
    }
    !is_led(rec, s, b, v, any)
}

// Whether a slot's cells fit, and its card is what a recount of its votes gives.
pub fn votes_fit(rec: &[u64], s: Slot) -> bool
    requires { Auditing rec.now s.0 }
    ensures { result ≡ (cells_fit (ledger_of rec.now) s.0 (ledger_of rec.now).count && card_fits (ledger_of rec.now) s.0) }
{
    let t = load_card(rec, s);
    let skip = t.skip;
    let finals = t.finals;
    let skipcert = t.skipcert;
    let sums = sums_of(rec, s, t.leader);
    let x = sums.skip;
    let y = sums.finals;
    let z = sums.skipcert;
    let same = (skip.0 == x.0) & ((finals.0 == y.0) & (skipcert.0 == z.0));
    if !(sums.fits & same) {
        return false;
    }
    leader_fits(rec, s, t, sums)
}
