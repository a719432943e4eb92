// What the operations answer, as numbers and values on the panel: the definitions of the paper's numbers say which. Values of what was
// found are for `Result::map_or`, with zeros for a refusal.
#![tactic(auto)]

ghost use Rattle.std.specs.Prelude.{◌≡◌, [], ◌∷◌};
ghost use Rattle.rulebook.specs.Tools.{part};
ghost use Rattle.rulebook.specs.PaperNumbers.{answer_number, answer_values, check_values, check_missing};
ghost use Rattle.cards.specs.Asked.{card_values, card_panel};
ghost use Rattle.differences.specs.Lent.{differ_panel};
ghost use Rattle.inquest_lines.specs.Lent.{list_panel};
ghost use Rattle.readers.specs.Asked.{cell_values, kept_values, mark_values, head_values, head_panel};
ghost use Rattle.readers.specs.Weighed.{weight_values};
ghost use Rattle.answers.specs.Face.{Beside, vote_values, accepted_values};

use differences::{DifferRefusal, side_number};
use inquest_lines::ListRefusal;
use kinds::{number_in, refusal_missing};
use readers::{BlockWeights, KeptBlocks, RecordHead, SlotMarks};
use rulebook::{Accepted, Cell, Refusal, Tally, Vote, Weight};

// What an operation answers, as a number: 0, or its refusal's.
pub fn number_of<T: Drop>(a: Result<T, Refusal>) -> u64
    ensures { result ≡ answer_number a }
{
    a.map_or_else(u64::from, |_| 0)
}

// 1 for yes; 0 for no, and beside a refusal.
#[tactic(auto, unfolding(rulebook::specs::Tools::part))]
pub fn yes_value(a: Result<bool, Refusal>) -> u64
    ensures { Beside result (answer_values (0 ∷ []) (λ yes. part yes 1 ∷ []) a) }
{
    a.map_or(0, u64::from)
}

// Kind, slot, block, signer count and weight of what was checked under a table of so many nodes, zeros beside a refusal.
#[tactic(auto, unfolding(rulebook::specs::PaperNumbers::check_values))]
pub fn check_values(count: usize, a: Result<Accepted, Refusal>) -> [u64; 5]
    ensures { result ≡ check_values count a }
{
    match a {
        Ok(x) => accepted_values(count, x),
        Err(_) => [0; 5],
    }
}

// What is missing to the threshold, 0 unless the number is 15.
#[tactic(auto, unfolding(rulebook::specs::PaperNumbers::check_missing))]
pub fn check_missing(a: Result<Accepted, Refusal>) -> Weight
    ensures { result.0 ≡ check_missing a }
{
    a.map_or_else(refusal_missing, |_| Weight(0))
}

// The five values of an accepted check.
fn accepted_values(count: usize, x: Accepted) -> [u64; 5]
    ensures { result ≡ accepted_values count x }
{
    [
        number_in(count, x.kind),
        x.slot.0 as u64,
        x.block,
        x.signers,
        x.weight.0,
    ]
}

// What the comparison of two records answers, as a number.
#[tactic(auto, unfolding(differences::specs::Lent::differ_panel))]
pub fn differ_number(a: Result<usize, DifferRefusal>) -> u64
    ensures { result ≡ (differ_panel a).number }
{
    match a {
        Ok(_) => 0,
        Err(DifferRefusal::BadRecord(_)) => u64::from(Refusal::BadRecord),
        Err(DifferRefusal::NoRoom(_)) => u64::from(Refusal::NoRoom),
    }
}

// How many lines there are, beside 17 the side, beside 9 how many lines are needed.
#[tactic(auto, unfolding(differences::specs::Lent::differ_panel))]
pub fn differ_value(a: Result<usize, DifferRefusal>) -> usize
    ensures { Beside result (differ_panel a).values }
{
    match a {
        Ok(n) | Err(DifferRefusal::NoRoom(n)) => n,
        Err(DifferRefusal::BadRecord(s)) => side_number(s) as usize,
    }
}

// What a question for a list answers, as a number.
#[tactic(auto, unfolding(inquest_lines::specs::Lent::list_panel))]
pub fn list_number(a: Result<usize, ListRefusal>) -> u64
    ensures { result ≡ (list_panel a).number }
{
    match a {
        Ok(_) => 0,
        Err(ListRefusal::BadRecord(_)) => u64::from(Refusal::BadRecord),
        Err(ListRefusal::Refused(r)) => u64::from(r),
        Err(ListRefusal::NoRoom(_)) => u64::from(Refusal::NoRoom),
    }
}

// How many lines there are, beside 17 of two records the side, beside 9 how many lines are needed, beside another refusal 0.
#[tactic(auto, unfolding(inquest_lines::specs::Lent::list_panel))]
pub fn list_value(a: Result<usize, ListRefusal>) -> usize
    ensures { Beside result (list_panel a).values }
{
    match a {
        Ok(n) | Err(ListRefusal::NoRoom(n)) => n,
        Err(ListRefusal::BadRecord(s)) => side_number(s) as usize,
        Err(ListRefusal::Refused(_)) => 0,
    }
}

// Kind, node, slot and block of a vote.
pub fn vote_values(v: Vote) -> [u64; 4]
    ensures { result ≡ vote_values v }
{
    [u64::from(v.kind), v.node.0 as u64, v.slot.0 as u64, v.block]
}

// Skip, final and skip-certificate weight, the leading block and its weight, zeros beside a refusal.
#[tactic(auto, unfolding(cards::specs::Asked::card_panel))]
pub fn card_values(a: Result<Tally, Refusal>) -> [u64; 5]
    ensures { result ≡ (card_panel a).values }
{
    a.map_or([0; 5], tally_values)
}

// The five words of a card.
fn tally_values(t: Tally) -> [u64; 5]
    ensures { result ≡ card_values t }
{
    [t.skip.0, t.finals.0, t.skipcert.0, t.leader, t.weight.0]
}

// The seven words of a cell.
pub fn cell_values(c: Cell) -> [u64; 7]
    ensures { result ≡ cell_values c }
{
    [
        c.notar,
        c.skip,
        c.fallback1,
        c.fallback2,
        c.fallback3,
        c.skipfallback,
        c.finalvote,
    ]
}

// The twelve words of four blocks: number, parent's slot and parent of each.
pub fn kept_values(k: KeptBlocks) -> [u64; 12]
    ensures { result ≡ kept_values k }
{
    let (a, b, c, d) = (k.first, k.second, k.third, k.fourth);
    [
        a.number,
        a.parentslot.0 as u64,
        a.parent,
        b.number,
        b.parentslot.0 as u64,
        b.parent,
        c.number,
        c.parentslot.0 as u64,
        c.parent,
        d.number,
        d.parentslot.0 as u64,
        d.parent,
    ]
}

// A slot's two marks: timed out, and another final block.
pub fn mark_values(m: SlotMarks) -> [u64; 2]
    ensures { result ≡ mark_values m }
{
    [m.timedout, m.clash]
}

// Own number, nodes, stake and genesis, zeros beside a refusal.
#[tactic(auto, unfolding(readers::specs::Asked::head_panel))]
pub fn head_values(a: Result<RecordHead, Refusal>) -> [u64; 4]
    ensures { result ≡ (head_panel a).values }
{
    a.map_or([0; 4], facts_values)
}

// The four words of a head.
fn facts_values(h: RecordHead) -> [u64; 4]
    ensures { result ≡ head_values h }
{
    [h.own.0 as u64, h.nodes as u64, h.stake.0, h.genesis]
}

// A block's four weights.
pub fn weight_values(w: BlockWeights) -> [u64; 4]
    ensures { result ≡ weight_values w }
{
    [w.notar.0, w.fallback.0, w.skip.0, w.missing.0]
}
