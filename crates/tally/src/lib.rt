// The tally card of one slot, changed in place, and what a vote adds to it.
#![tactic(auto)]

ghost use Rattle.std.specs.Prelude.{◌≡◌, ◌≤◌, ◌^◌};
ghost use Rattle.rulebook.specs.Tools.{part};
ghost use Rattle.rulebook.specs.Cards.{leads, tallied, Light, adds};

use rulebook::{Cell, Tally, VoteKind, Weight};

// A card without any weight, which adds nothing.
const NOTHING: Tally = Tally {
    skip: Weight(0),
    finals: Weight(0),
    skipcert: Weight(0),
    leader: 0,
    weight: Weight(0),
};

// Whether block b at weight w leads block m at weight v.
#[tactic(auto, unfolding(rulebook::specs::Cards::leads))]
pub fn leads(b: u64, w: Weight, m: u64, v: Weight) -> bool
    ensures { result ≡ leads b w.0 m v.0 }
{
    (v.0 < w.0) | ((v.0 == w.0) & (b < m))
}

// The card with what a vote adds.
#[tactic(auto, unfolding(rulebook::specs::Cards::tallied, rulebook::specs::Tools::choose))]
pub fn tallied(t: Tally, d: Tally) -> Tally
    requires { Light t × Light d }
    ensures { result ≡ tallied t d }
{
    let (leader, weight) = if leads(d.leader, d.weight, t.leader, t.weight) {
        (d.leader, d.weight)
    } else {
        (t.leader, t.weight)
    };
    Tally {
        skip: Weight(t.skip.0 + d.skip.0),
        finals: Weight(t.finals.0 + d.finals.0),
        skipcert: Weight(t.skipcert.0 + d.skipcert.0),
        leader,
        weight,
    }
}

// The card is changed in place.
pub fn update(t: &mut Tally, d: Tally)
    requires { Light t.old × Light d }
    ensures { t.new ≡ tallied t.old d }
{
    *t = tallied(*t, d);
}

// The weight where the test passes, else none.
#[tactic(auto, unfolding(rulebook::specs::Tools::part))]
fn part_of(passes: bool, w: Weight) -> Weight
    ensures { result.0 ≡ part passes w.0 }
{
    if passes { w } else { Weight(0) }
}

// What a vote adds, where c is kept of the node so far, w is its stake and v the weight of its block's notar votes so far.
#[tactic(auto, unfolding(rulebook::specs::Cards::adds))]
pub fn adds(c: Cell, k: VoteKind, b: u64, w: Weight, v: Weight) -> Tally
    requires { (w.0 ≤ 2 ^ 48) × (v.0 ≤ 2 ^ 48) }
    ensures { result ≡ adds c k b w.0 v.0 }
{
    match k {
        VoteKind::Notar => Tally {
            leader: b,
            weight: Weight(v.0 + w.0),
            ..NOTHING
        },
        VoteKind::NotarFallback | VoteKind::Other => NOTHING,
        VoteKind::Skip => Tally {
            skip: w,
            skipcert: part_of(c.skipfallback == 0, w),
            ..NOTHING
        },
        VoteKind::SkipFallback => Tally {
            skipcert: part_of(c.skip == 0, w),
            ..NOTHING
        },
        VoteKind::Final => Tally {
            finals: w,
            ..NOTHING
        },
    }
}
