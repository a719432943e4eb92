// Thresholds of stake, and how much is missing to one.
#![tactic(auto)]

ghost use Rattle.std.specs.Prelude.{◌≡◌};
ghost use Rattle.rulebook.specs.Weights.{missing, Weighable};

use rulebook::Weight;

// A number of fifths of the total stake: one of the four below, and no other can be made outside.
#[derive(Clone, Copy)]
pub struct Threshold(u64);

impl Threshold {
    pub const EIGHTY: Threshold = Threshold(4);

    pub const SIXTY: Threshold = Threshold(3);

    pub const FORTY: Threshold = Threshold(2);

    pub const TWENTY: Threshold = Threshold(1);

    // The least further weight with which weight w would reach this many fifths of the total t, 0 where it does.
    pub fn missing(self, w: Weight, t: Weight) -> Weight
        requires { Weighable self.0 t.0 }
        ensures { result.0 ≡ missing self.0 t.0 w.0 }
    {
        let needed = (self.0 * t.0 + 4) / 5;
        if needed <= w.0 {
            return Weight(0);
        }
        Weight(needed - w.0)
    }
}
