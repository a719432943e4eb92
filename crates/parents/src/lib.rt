// Ready parents: a block that a slot holds, or genesis, with every slot between skipped. A slot's blocks are those that its votes
// and its kept certificates name.
#![tactic(auto)]

ghost use Rattle.std.specs.Prelude.{◌≡◌, ◌+◌, length, get_or};
ghost use Rattle.rulebook.specs.declared.CertificateKind.TheVariants as certificate;
ghost use Rattle.rulebook.specs.Tools.{any_of, some_to};
ghost use Rattle.rulebook.specs.Weights.{reaches};
ghost use Rattle.rulebook.specs.Cards.{most};
ghost use Rattle.rulebook.specs.Pool.{held, names, certifiable, parent_held, skipped_between, ready, some_ready};
ghost use Rattle.rulebook.specs.Ledger.{certificates_at, kept_at};
ghost use Rattle.record.specs.Layout.{ledger_of};
ghost use Rattle.pool.specs.Weighing.{Weighing, Carded, named_holds};
ghost use Rattle.parents.specs.Naming.{Parental, Between, some_kept_holds, Keeping, names_some, named_weight, Left, Leaving, Unkept};

use heavy_blocks::heavy_names;
use kept_certificates::block_at;
use pool::{held, reached};
use record::{MOST_CERTIFICATES, count, genesis, load_card, load_cell, stake, total};
use rulebook::{Cell, CertificateKind, Node, Slot, Weight};
use thresholds::Threshold;

// Whether b is a parent that slot p holds, or genesis.
fn parent_held(rec: &[u64], p: Slot, b: u64) -> bool
    requires { Parental rec.now p.0 }
    ensures { result ≡ parent_held (ledger_of rec.now) p.0 b }
{
    if p.0 == 0 {
        let first = genesis(rec);
        return b == first;
    }
    held(rec, CertificateKind::NotarFallback, p, b)
}

// Whether every slot strictly between p and s holds kind 4.
fn skipped_between(rec: &[u64], p: Slot, s: Slot) -> bool
    requires { Between rec.now p.0 s.0 }
    ensures { result ≡ skipped_between (ledger_of rec.now) p.0 s.0 }
{
    let from = p.0 + 1;
    for q in from..s.0 {
        if !held(rec, CertificateKind::Skip, Slot(q), 0) {
            return false;
        }
    }
    true
}

// Whether the parent (p, b) is ready for slot s.
pub fn ready(rec: &[u64], s: Slot, p: Slot, b: u64) -> bool
    requires { Carded rec.now s.0 }
    ensures { result ≡ ready (ledger_of rec.now) s.0 p.0 b }
{
    if s.0 <= p.0 {
        return false;
    }
    if !parent_held(rec, p, b) {
        return false;
    }
    skipped_between(rec, p, s)
}

// Whether there is a block b and it holds kind 3 in slot p: by votes, since no kept certificate's block does.
fn name_held(rec: &[u64], p: Slot, b: u64) -> bool
    requires { Unkept rec.now p.0 }
    ensures { result ≡ named_holds (held (ledger_of rec.now) certificate.NotarFallback p.0) b }
{
    if b == 0 {
        return false;
    }
    reached(rec, CertificateKind::NotarFallback, p, b)
}

// Whether one of some blocks holds kind 3 in slot p.
fn some_block_held(rec: &[u64], p: Slot, blocks: &[u64]) -> bool
    requires { Unkept rec.now p.0 }
    ensures { result ≡ some_to (length blocks.now) (λ i. named_holds (held (ledger_of rec.now) certificate.NotarFallback p.0) (get_or blocks.now i 0)) }
{
    for b in blocks {
        if name_held(rec, p, *b) {
            return true;
        }
    }
    false
}

// Whether the notar votes of slot p's leading block reach 60.
pub fn leader_held(rec: &[u64], p: Slot) -> bool
    requires { Carded rec.now p.0 }
    ensures { result ≡ reaches 3 (ledger_of rec.now).total (most (ledger_of rec.now) p.0) }
{
    let card = load_card(rec, p);
    let short = Threshold::SIXTY.missing(card.weight, total(rec));
    short.0 == 0
}

// Whether a cell names some block.
pub fn names_some(c: Cell) -> bool
    ensures { result ≡ names_some c }
{
    (c.notar != 0) | ((c.fallback1 != 0) | ((c.fallback2 != 0) | (c.fallback3 != 0)))
}

// What is left of the total behind node n: its stake is taken off where it names no block.
fn left_behind(rec: &[u64], p: Slot, n: Node, left: Weight) -> Weight
    requires { Leaving rec.now p.0 n.0 left.0 }
    ensures { Left (ledger_of rec.now) p.0 (n.0 + 1) result.0 }
{
    if names_some(load_cell(rec, p, n)) {
        return left;
    }
    let w = stake(rec, n);
    Weight(left.0 - w.0)
}

// Whether the nodes that name some block in slot p reach 60: else no block does. Where too little is left of the total without those
// that name none, the others are not looked at.
fn enough_named(rec: &[u64], p: Slot) -> bool
    requires { Weighing rec.now p.0 }
    ensures { result ≡ reaches 3 (ledger_of rec.now).total (named_weight (ledger_of rec.now) p.0) }
{
    let all = total(rec);
    let needed = Threshold::SIXTY.missing(Weight(0), all);
    let nodes = count(rec);
    let mut left = all;
    for n in 0..nodes {
        left = left_behind(rec, p, Node(n), left);
        if left.0 < needed.0 {
            return false;
        }
    }
    true
}

// Whether some block that the votes of slot p name holds kind 3: the leader by notar votes alone, none where too few name any, else
// one of the six that can.
fn some_name_held(rec: &[u64], p: Slot) -> bool
    requires { Unkept rec.now p.0 }
    ensures { result ≡ any_of (held (ledger_of rec.now) certificate.NotarFallback p.0) (names (ledger_of rec.now) p.0) }
{
    if leader_held(rec, p) {
        return true;
    }
    if !enough_named(rec, p) {
        return false;
    }
    let blocks = heavy_names(rec, p);
    some_block_held(rec, p, &blocks)
}

// Whether the block of one of slot p's places for certificates holds kind 3.
fn kept_holds(rec: &[u64], p: Slot, n: usize) -> bool
    requires { Keeping rec.now p.0 n }
    ensures { result ≡ named_holds (held (ledger_of rec.now) certificate.NotarFallback p.0) (kept_at (ledger_of rec.now) p.0 n).block }
{
    let b = block_at(rec, p, n);
    if b == 0 {
        return false;
    }
    held(rec, CertificateKind::NotarFallback, p, b)
}

// Whether some block that a kept certificate of slot p names holds kind 3.
fn some_kept_holds(rec: &[u64], p: Slot) -> bool
    requires { Carded rec.now p.0 }
    ensures { result ≡ some_kept_holds (held (ledger_of rec.now) certificate.NotarFallback p.0) (certificates_at (ledger_of rec.now) p.0) }
{
    for n in 0..MOST_CERTIFICATES {
        if kept_holds(rec, p, n) {
            return true;
        }
    }
    false
}

// Whether some block that votes or kept certificates of slot p name holds kind 3.
fn some_held(rec: &[u64], p: Slot) -> bool
    requires { Carded rec.now p.0 }
    ensures { result ≡ any_of (held (ledger_of rec.now) certificate.NotarFallback p.0) (certifiable (ledger_of rec.now) p.0) }
{
    if some_kept_holds(rec, p) {
        return true;
    }
    some_name_held(rec, p)
}

// Whether some parent is ready for slot s: from the slot before s downwards, as far as slots are skipped.
pub fn some_ready(rec: &[u64], s: Slot) -> bool
    requires { Carded rec.now s.0 }
    ensures { result ≡ some_ready (ledger_of rec.now) s.0 }
{
    for q in (1..s.0).rev() {
        if some_held(rec, Slot(q)) {
            return true;
        }
        if !held(rec, CertificateKind::Skip, Slot(q), 0) {
            return false;
        }
    }
    0 < s.0
}
