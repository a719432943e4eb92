// Whether some block of a slot leads a claimed leader. The votes for other blocks are summed in groups first; where a group has enough
// they are listed by block; and only where that shows nothing are blocks weighed, each once.
#![tactic(auto)]

ghost use Rattle.std.specs.Prelude.{◌≡◌, false, ◌≤◌, ◌^◌};
ghost use Rattle.rulebook.specs.Cards.{leads};
ghost use Rattle.record.specs.Layout.{ledger_of};
ghost use Rattle.vote_orders.specs.Ordering.{Shows};
ghost use Rattle.rivals.specs.Rivals.{Trying, Leading, Grouping, Claimed, first_weight, has_rival};

use candidates::is_new;
use pool::weigh;
use record::{count, load_cell, notar_of, stake};
use rulebook::{MOST_NODES, Node, Slot, Weight, Who};
use tally::leads;
use vote_orders::{Shown, shown_by};
use vote_sorting::list_votes;

// The most nodes of a ring for which 64 words are enough, for groups and for a list of votes.
const FEW_NODES: usize = 64;

// The weight of node n's block m where n is the first that votes for it; 0 where it is no block, or b.
fn first_weight(rec: &[u64], s: Slot, n: Node, m: u64, b: u64) -> Weight
    requires { Trying rec.now s.0 n.0 }
    ensures { result.0 ≡ first_weight (ledger_of rec.now) s.0 n.0 m b }
{
    if m == b {
        return Weight(0);
    }
    if !is_new(rec, s, n, m) {
        return Weight(0);
    }
    weigh(rec, s, Who::Notar(m))
}

// Whether some block of the slot leads b at weight v. Each other block is weighed once, and none any more as soon as all that are
// left have less than b together.
fn has_rival(rec: &[u64], s: Slot, b: u64, v: Weight, any: Weight) -> bool
    requires { Claimed rec.now s.0 b v.0 any.0 }
    ensures { result ≡ has_rival (ledger_of rec.now) s.0 b v.0 (ledger_of rec.now).count }
{
    let nodes = count(rec);
    let mut rest = any.0 - v.0;
    for n in 0..nodes {
        if rest < v.0 {
            return false;
        }
        let c = load_cell(rec, s, Node(n));
        let w = first_weight(rec, s, Node(n), c.notar, b);
        if leads(c.notar, w, b, v) {
            return true;
        }
        rest -= w.0;
    }
    false
}

// Whether block m at weight w leads b at weight v: a lower number counts as one unit more.
fn is_ahead(m: u64, w: Weight, b: u64, v: Weight) -> bool
    requires { w.0 ≤ 2 ^ 49 }
    ensures { result ≡ leads m w.0 b v.0 }
{
    let mut most = w.0;
    if m < b {
        most += 1;
    }
    v.0 < most
}

// Whether some group leads b at weight v: the notar votes for other blocks are summed in the lent groups, by the last bits of their
// blocks' numbers. No block has more than its group.
fn group_leads(rec: &[u64], s: Slot, b: u64, v: Weight, groups: &mut [u64]) -> bool
    requires { Grouping rec.now s.0 b v.0 groups.old }
    ensures { result ≡ false → has_rival (ledger_of rec.now) s.0 b v.0 (ledger_of rec.now).count ≡ false }
{
    let nodes = count(rec);
    let size = groups.len() as u64;
    for n in 0..nodes {
        let m = notar_of(rec, s, Node(n));
        if (m != 0) & (m != b) {
            let w = stake(rec, Node(n));
            let g = (m & (size - 1)) as usize;
            let before = groups[g];
            let sum = Weight(before + w.0);
            if is_ahead(m, sum, b, v) {
                return true;
            }
            groups[g] = sum.0;
        }
    }
    false
}

// What the slot's notar votes, listed by block in the lent words, show of the leader b at weight v.
fn shown_in_order(rec: &[u64], s: Slot, b: u64, v: Weight, any: Weight, words: &mut [u64]) -> Shown
    requires { Claimed rec.now s.0 b v.0 any.0 }
    ensures { Shows (ledger_of rec.now) s.0 b v.0 result }
{
    let k = list_votes(rec, s, words);
    shown_by(rec, s, b, v, any, &words[0..k])
}

// Whether some block of the slot leads b at weight v, over lent words with nothing in them. Only where a group has enough are the votes
// listed by block, which shows whether one leads; were it not to, blocks would be weighed.
fn is_led_over(rec: &[u64], s: Slot, b: u64, v: Weight, any: Weight, words: &mut [u64]) -> bool
    requires { Claimed rec.now s.0 b v.0 any.0 × Grouping rec.now s.0 b v.0 words.old }
    ensures { result ≡ has_rival (ledger_of rec.now) s.0 b v.0 (ledger_of rec.now).count }
{
    if !group_leads(rec, s, b, v, words) {
        return false;
    }
    match shown_in_order(rec, s, b, v, any, words) {
        Shown::Unled => false,
        Shown::Led => true,
        Shown::Neither => has_rival(rec, s, b, v, any),
    }
}

// Likewise, over so many words of its own, a number of groups that is a power of two.
fn is_led_with<const WORDS: usize>(rec: &[u64], s: Slot, b: u64, v: Weight, any: Weight) -> bool
    requires claimed { Claimed rec.now s.0 b v.0 any.0 }
    requires some { (1 ≤ WORDS) × (WORDS ≤ 2048) }
    ensures { result ≡ has_rival (ledger_of rec.now) s.0 b v.0 (ledger_of rec.now).count }
{
    let mut words = [0u64; WORDS];
    is_led_over(rec, s, b, v, any, &mut words)
}

// Whether some block of the slot leads b at weight v. A larger ring has more groups, so that few blocks share one.
pub fn is_led(rec: &[u64], s: Slot, b: u64, v: Weight, any: Weight) -> bool
    requires { Claimed rec.now s.0 b v.0 any.0 }
    ensures { result ≡ has_rival (ledger_of rec.now) s.0 b v.0 (ledger_of rec.now).count }
{
    if count(rec) <= FEW_NODES {
        return is_led_with::<FEW_NODES>(rec, s, b, v, any);
    }
    is_led_with::<MOST_NODES>(rec, s, b, v, any)
}
