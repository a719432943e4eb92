// The tests of rules D to F: what they ask of the weights, and the block that D and F act on. Nothing is weighed where the
// cheap tests or the slot's card settle it.
#![tactic(auto)]

ghost use Rattle.std.specs.Prelude.{◌≡◌, not, ◌-◌, length};
ghost use Rattle.rulebook.specs.Tools.{lower, lowest};
ghost use Rattle.rulebook.specs.Weights.{reaches, d_weights};
ghost use Rattle.rulebook.specs.Pool.{certifiable};
ghost use Rattle.rulebook.specs.Rules.{fallback_weights, parent_backed, is_backed, is_grounded, falls_back, fallback_block, skip_weights, is_final, is_newcomer};
ghost use Rattle.record.specs.Layout.{ledger_of};
ghost use Rattle.pool.specs.Weighing.{Carded, Passed, named_holds};
ghost use Rattle.candidates.specs.Judging.{Judging, Within, is_new, blocks_to};

use heavy_blocks::heavy_notar;
use kept_certificates::block_at;
use own_votes::{may_fallback, window_open};
use pool::{counted_before, held, is_first, weigh, weight_of};
use record::{MOST_BLOCKS, MOST_CERTIFICATES, final_block, load_block, load_card, own_cell, total};
use rulebook::{Block, CertificateKind, Node, Slot, Weight, Who};
use thresholds::Threshold;

// D's weights: notar reaches 40, or notar reaches 20 and skip + notar reaches 60.
fn is_heavy(notar: Weight, skip: Weight, total: Weight) -> bool
    requires { Within total.0 notar.0 skip.0 }
    ensures { result ≡ d_weights total.0 notar.0 skip.0 }
{
    let to_forty = Threshold::FORTY.missing(notar, total);
    if to_forty.0 == 0 {
        return true;
    }
    let to_twenty = Threshold::TWENTY.missing(notar, total);
    if to_twenty.0 != 0 {
        return false;
    }
    let to_sixty = Threshold::SIXTY.missing(Weight(skip.0 + notar.0), total);
    to_sixty.0 == 0
}

// Whether block b has D's weights.
pub fn fallback_weights(rec: &[u64], s: Slot, b: u64) -> bool
    requires { Carded rec.now s.0 }
    ensures { result ≡ fallback_weights (ledger_of rec.now) s.0 b }
{
    let card = load_card(rec, s);
    let notar = weight_of(rec, s, Who::Notar(b));
    is_heavy(notar, card.skip, total(rec))
}

// Whether kind 3 is held for the parent (p, x) of a block of slot s: genesis has none, and a parent stands below.
fn parent_backed(rec: &[u64], s: Slot, p: Slot, x: u64) -> bool
    requires { Carded rec.now s.0 }
    ensures { result ≡ parent_backed (ledger_of rec.now) s.0 p.0 x }
{
    if p.0 == 0 {
        return false;
    }
    if s.0 <= p.0 {
        return false;
    }
    held(rec, CertificateKind::NotarFallback, p, x)
}

// Whether k, in one of slot s's places, is block b, and its parent backed.
fn is_backed(rec: &[u64], s: Slot, b: u64, k: Block) -> bool
    requires { Carded rec.now s.0 }
    ensures { result ≡ is_backed (ledger_of rec.now) s.0 b k }
{
    if k.number == 0 {
        return false;
    }
    if k.number != b {
        return false;
    }
    let p = k.parentslot;
    parent_backed(rec, s, p, k.parent)
}

// Whether D need not wait for b: in a first slot; elsewhere where b is kept and its parent backed.
pub fn is_grounded(rec: &[u64], s: Slot, b: u64) -> bool
    requires { Carded rec.now s.0 }
    ensures { result ≡ is_grounded (ledger_of rec.now) s.0 b }
{
    if is_first(s) {
        return true;
    }
    for n in 0..MOST_BLOCKS {
        let k = load_block(rec, s, n);
        if is_backed(rec, s, b, k) {
            return true;
        }
    }
    false
}

// Whether D applies to b: the own vote is not notar b, something would be cast, the weights, the block and its parent.
fn falls_back(rec: &[u64], s: Slot, b: u64) -> bool
    requires { Carded rec.now s.0 }
    ensures { result ≡ falls_back (ledger_of rec.now) s.0 b }
{
    let c = own_cell(rec, s);
    if c.notar == b {
        return false;
    }
    let casts = window_open(rec, s) | may_fallback(c, b);
    if !casts {
        return false;
    }
    let heavy = fallback_weights(rec, s, b);
    if !heavy {
        return false;
    }
    is_grounded(rec, s, b)
}

// The lower of b, where it passes, and m; 0 stands for none.
fn lower(passes: bool, b: u64, m: u64) -> u64
    ensures { result ≡ lower passes b m }
{
    if !passes {
        return m;
    }
    if (m != 0) & (m < b) {
        return m;
    }
    b
}

// Whether there is a b and no node before n has a notar vote for it.
pub fn is_new(rec: &[u64], s: Slot, n: Node, b: u64) -> bool
    requires { Passed rec.now s.0 n.0 }
    ensures { result ≡ is_new (ledger_of rec.now) s.0 n.0 b }
{
    if b == 0 {
        return false;
    }
    !counted_before(rec, s, n, Who::Notar(b))
}

// The lower of b, where there is one that D applies to, and m; 0 stands for none.
fn lower_fallback(rec: &[u64], s: Slot, b: u64, m: u64) -> u64
    requires { Carded rec.now s.0 }
    ensures { result ≡ lower (named_holds (falls_back (ledger_of rec.now) s.0) b) b m }
{
    if b == 0 {
        return m;
    }
    lower(falls_back(rec, s, b), b, m)
}

// The lowest of some blocks that D applies to, 0 where there is none.
fn lowest_of(rec: &[u64], s: Slot, blocks: &[u64]) -> u64
    requires { Carded rec.now s.0 }
    ensures { result ≡ lowest (falls_back (ledger_of rec.now) s.0) (blocks_to blocks.now (length blocks.now)) }
{
    let mut best: u64 = 0;
    for b in blocks {
        best = lower_fallback(rec, s, *b, best);
    }
    best
}

// The lowest block that D applies to, 0 where there is none: one of the six that can have 20 percent of notar votes.
fn lowest_fallback(rec: &[u64], s: Slot) -> u64
    requires { Carded rec.now s.0 }
    ensures { result ≡ fallback_block (ledger_of rec.now) s.0 }
{
    let blocks = heavy_notar(rec, s);
    lowest_of(rec, s, &blocks)
}

// Whether all that the leading block does not have stays short of 40.
fn leads_alone(most: Weight, total: Weight) -> bool
    requires { Within total.0 most.0 0 }
    ensures { result ≡ not (reaches 2 total.0 (total.0 - most.0)) }
{
    let rest = Threshold::FORTY.missing(Weight(total.0 - most.0), total);
    rest.0 != 0
}

// D's block: the lowest that D applies to, 0 where there is none. Where the leader's weights do not suffice no block's do, and
// where the leader leads alone no other's do.
pub fn fallback_block(rec: &[u64], s: Slot) -> u64
    requires { Judging rec.now s.0 }
    ensures { result ≡ fallback_block (ledger_of rec.now) s.0 }
{
    let card = load_card(rec, s);
    let total = total(rec);
    let b = card.leader;
    if !is_heavy(card.weight, card.skip, total) {
        return 0;
    }
    if leads_alone(card.weight, total) {
        return lower(falls_back(rec, s, b), b, 0);
    }
    lowest_fallback(rec, s)
}

// F's test: kind 1 held for b, or kinds 2 for b and 5. Where kind 1 is held kind 2 is, which is asked for first.
pub fn is_final(rec: &[u64], s: Slot, b: u64) -> bool
    requires { Carded rec.now s.0 }
    ensures { result ≡ is_final (ledger_of rec.now) s.0 b }
{
    if !held(rec, CertificateKind::Notar, s, b) {
        return false;
    }
    if held(rec, CertificateKind::FastFinal, s, b) {
        return true;
    }
    held(rec, CertificateKind::Final, s, 0)
}

// The lower of b, where there is one that is final in slot s and not the slot's final block, and m; 0 stands for none.
fn lower_newcomer(rec: &[u64], s: Slot, b: u64, m: u64) -> u64
    requires { Carded rec.now s.0 }
    ensures { result ≡ lower (named_holds (is_newcomer (ledger_of rec.now) s.0) b) b m }
{
    if (b == 0) | (b == final_block(rec, s)) {
        return m;
    }
    lower(is_final(rec, s, b), b, m)
}

// F's block: the lowest other than the slot's final block that is final in slot s, 0 where there is none. Only the leader and
// blocks of kept certificates can be it.
pub fn newcomer(rec: &[u64], s: Slot) -> u64
    requires { Carded rec.now s.0 }
    ensures { result ≡ lowest (is_newcomer (ledger_of rec.now) s.0) (certifiable (ledger_of rec.now) s.0) }
{
    let card = load_card(rec, s);
    let mut best = lower_newcomer(rec, s, card.leader, 0);
    for n in (0..MOST_CERTIFICATES).rev() {
        let b = block_at(rec, s, n);
        best = lower_newcomer(rec, s, b, best);
    }
    best
}

// E's weights: skip + all notar - largest notar(b) reaches 40. Skip alone may reach it, and where the leader leads alone it is
// not reached: all notar is weighed only in between.
pub fn skip_weights(rec: &[u64], s: Slot) -> bool
    requires { Judging rec.now s.0 }
    ensures { result ≡ skip_weights (ledger_of rec.now) s.0 }
{
    let card = load_card(rec, s);
    let total = total(rec);
    let skips = card.skip;
    let most = card.weight;
    if leads_alone(most, total) {
        return false;
    }
    let to_forty = Threshold::FORTY.missing(skips, total);
    if to_forty.0 == 0 {
        return true;
    }
    let notars = weigh(rec, s, Who::AnyNotar);
    let rest = skips.0 + notars.0 - most.0;
    let short = Threshold::FORTY.missing(Weight(rest), total);
    short.0 == 0
}
