// Which own votes of a record do not stand on what the record holds: one test for each kind of vote, by the rule that casts it, and the
// lines of those that fail it.
#![tactic(auto)]

ghost use Rattle.std.specs.Prelude.{◌≡◌, not, ◌+◌, ◌≤◌, ◌&&◌, length};
ghost use Rattle.rulebook.specs.Weights.{is_first};
ghost use Rattle.rulebook.specs.Ledger.{none};
ghost use Rattle.rulebook.specs.Rules.{parent_fits};
ghost use Rattle.safety.specs.Moves.{no_fallback, not_for};
ghost use Rattle.record.specs.Layout.{Long, ledger_of};
ghost use Rattle.pool.specs.Weighing.{Carded};
ghost use Rattle.candidates.specs.Judging.{Judging};
ghost use Rattle.inquest.specs.Stands.{lets_notar, notar_stands, fallback_stands, late_stands, final_stands};
ghost use Rattle.inquest.specs.Lists.{slot_fallen, fallen};
ghost use Rattle.inquest_lines.specs.Lent.{Laid, ToldIn, listed_in, most_lines};
ghost use Rattle.standing.specs.Asked.{line_on, OwnLine, PuttingSlot, Sounding, StandsOf};

use candidates::{fallback_weights, is_grounded, skip_weights};
use inquest::Line;
use inquest_lines::{ListRefusal, list_lines, put_unless};
use parents::ready;
use pool::{held, is_first};
use record::{LAST_SLOT, MOST_BLOCKS, load_block, own, own_cell};
use rulebook::{Block, Cell, CertificateKind, Refusal, Slot, VoteKind};
use soundness::sound;

// The rules' numbers beside a vote; A is 1.
const RULE_B: u64 = 2;

const RULE_C: u64 = 3;

const RULE_D: u64 = 4;

const RULE_E: u64 = 5;

// Whether a kept block's parent lets rule B cast.
fn parent_fits(rec: &[u64], s: Slot, b: Block) -> bool
    requires { Carded rec.now s.0 }
    ensures { result ≡ parent_fits (ledger_of rec.now) s.0 (is_first s.0) b }
{
    let p = b.parentslot;
    if is_first(s) {
        return ready(rec, s, p, b.parent);
    }
    let before = own_cell(rec, Slot(s.0 - 1));
    (p.0 == s.0 - 1) & (before.notar == b.parent)
}

// Whether k, in one of slot s's places, is block b, and its parent fits.
fn lets_notar(rec: &[u64], s: Slot, b: u64, k: Block) -> bool
    requires { Carded rec.now s.0 }
    ensures { result ≡ lets_notar (ledger_of rec.now) s.0 b k }
{
    if k.number == 0 {
        return false;
    }
    if k.number != b {
        return false;
    }
    parent_fits(rec, s, k)
}

// B: an own notar vote for b stands on a kept block b whose parent fits.
fn notar_stands(rec: &[u64], s: Slot, b: u64) -> bool
    requires { Carded rec.now s.0 }
    ensures { result ≡ notar_stands (ledger_of rec.now) s.0 b }
{
    for n in 0..MOST_BLOCKS {
        let k = load_block(rec, s, n);
        if lets_notar(rec, s, b, k) {
            return true;
        }
    }
    false
}

// Whether the cell has an initial vote that is not notar b.
fn is_other(c: Cell, b: u64) -> bool
    ensures { result ≡ not_for b c }
{
    let missing = (c.notar == 0) & (c.skip == 0);
    let same = (b != 0) & (c.notar == b);
    !missing & !same
}

// Whether the cell has a notar vote and no fallback of either kind.
fn is_plain(c: Cell) -> bool
    ensures { result ≡ (not (none c.notar) && no_fallback c) }
{
    (c.notar != 0) & ((c.fallback1 == 0) & (c.skipfallback == 0))
}

// D: an own notar-fallback for b stands on another own initial vote, the weights and what D waits for.
fn fallback_stands(rec: &[u64], s: Slot, b: u64) -> bool
    requires { Carded rec.now s.0 }
    ensures { result ≡ fallback_stands (ledger_of rec.now) s.0 b }
{
    let c = own_cell(rec, s);
    if !is_other(c, b) {
        return false;
    }
    if !fallback_weights(rec, s, b) {
        return false;
    }
    is_grounded(rec, s, b)
}

// E: an own skip-fallback stands on an own notar vote and the weights.
fn late_stands(rec: &[u64], s: Slot) -> bool
    requires { Judging rec.now s.0 }
    ensures { result ≡ late_stands (ledger_of rec.now) s.0 }
{
    let c = own_cell(rec, s);
    if c.notar == 0 {
        return false;
    }
    skip_weights(rec, s)
}

// C: an own final vote stands on an own notar vote, no own fallback of either kind, and kind 2 held.
fn final_stands(rec: &[u64], s: Slot) -> bool
    requires { Carded rec.now s.0 }
    ensures { result ≡ final_stands (ledger_of rec.now) s.0 }
{
    let c = own_cell(rec, s);
    if !is_plain(c) {
        return false;
    }
    held(rec, CertificateKind::Notar, s, c.notar)
}

// The line of an own vote, with the rule that casts it.
fn own_line(rec: &[u64], slot: Slot, kind: VoteKind, block: u64, source: u64) -> Line
    requires { Long rec.now }
    ensures { result ≡ line_on (ledger_of rec.now).own slot kind block source }
{
    Line {
        slot,
        node: own(rec),
        kind,
        block,
        source,
    }
}

// Puts the line of an own vote that does not stand; a word of 0 is no vote, and its test is not asked.
fn put_own<F: FnOnce() -> bool>(list: &mut [u64], at: usize, word: u64, x: Line, stands: F) -> usize
    requires room { at + 1 ≤ most_lines }
    requires callable { F.IsAlwaysCallable stands }
    ensures line { OwnLine F.FnOnce stands word x list.old at list.new result }
    ensures upto { result ≤ at + 1 }
{
    if word == 0 {
        return at;
    }
    put_unless(list, at, stands(), x)
}

// Puts the lines of a slot, kinds ascending.
fn put_slot(list: &mut [u64], at: usize, rec: &[u64], s: Slot) -> usize
    requires { PuttingSlot rec.now s.0 at }
    ensures { Laid list.old at (slot_fallen (ledger_of rec.now) s.0) list.new result }
{
    let c = own_cell(rec, s);
    let x = own_line(rec, s, VoteKind::Notar, c.notar, RULE_B);
    let a = put_own(list, at, c.notar, x, || notar_stands(rec, s, c.notar));
    let x = own_line(rec, s, VoteKind::NotarFallback, c.fallback1, RULE_D);
    let b = put_own(
        list,
        a,
        c.fallback1,
        x,
        || fallback_stands(rec, s, c.fallback1),
    );
    let x = own_line(rec, s, VoteKind::NotarFallback, c.fallback2, RULE_D);
    let d = put_own(
        list,
        b,
        c.fallback2,
        x,
        || fallback_stands(rec, s, c.fallback2),
    );
    let x = own_line(rec, s, VoteKind::NotarFallback, c.fallback3, RULE_D);
    let e = put_own(
        list,
        d,
        c.fallback3,
        x,
        || fallback_stands(rec, s, c.fallback3),
    );
    let x = own_line(rec, s, VoteKind::SkipFallback, 0, RULE_E);
    let f = put_own(list, e, c.skipfallback, x, || late_stands(rec, s));
    let x = own_line(rec, s, VoteKind::Final, 0, RULE_C);
    put_own(list, f, c.finalvote, x, || final_stands(rec, s))
}

// Puts the lines of all slots, and answers how many there are, also where the list is too short for them.
fn put_slots(list: &mut [u64], rec: &[u64]) -> usize
    requires { Sounding rec.now }
    ensures { Laid list.old 0 (fallen (ledger_of rec.now)) list.new result }
{
    let mut next = 0;
    for i in 0..LAST_SLOT {
        next = put_slot(list, next, rec, Slot(i + 1));
    }
    next
}

// Lists the own votes that do not stand, counted first: where they have no room, nothing is put.
fn list_fallen(list: &mut [u64], rec: &[u64]) -> Result<usize, ListRefusal>
    requires { Sounding rec.now }
    ensures { ToldIn list.old (listed_in (length list.old) (fallen (ledger_of rec.now))) result list.new }
{
    list_lines(list, |part| put_slots(part, rec))
}

// Which own votes of a record do not stand, as lines from the list's front: refused with 17, or with 9 and the number of lines needed, and
// the list as found.
pub fn own_votes_stand(rec: &[u64], list: &mut [u64]) -> Result<usize, ListRefusal>
    ensures { StandsOf rec.now list.old result list.new }
{
    if !sound(rec) {
        return Err(ListRefusal::Refused(Refusal::BadRecord));
    }
    list_fallen(list, rec)
}
