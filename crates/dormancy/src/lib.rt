// Whether a look that weighs nothing shows that no rule applies in a slot.
#![tactic(auto)]

ghost use Rattle.std.specs.Prelude.{◌≡◌, ◌+◌, ◌*◌, ◌≤◌, ◌<◌, length};
ghost use Rattle.rulebook.specs.Ledger.{most_certificates};
ghost use Rattle.record.specs.Layout.{InSlot, ledger_of};
ghost use Rattle.pool.specs.Weighing.{Carded};
ghost use Rattle.dormancy.specs.Dormant.{is_idle, seeks_parent, is_stranded, first_asked, is_bare, names_from, names_kept, leads_anew, is_dormant};

use looks::is_short;
use parents::leader_held;
use pool::{held, is_first};
use record::{
    MOST_CERTIFICATES, final_block, kept_start, load_block, load_card, mask_words, own_cell,
    places_in,
};
use rulebook::{CertificateKind, Slot};
use rules::may_arm;
use voter::no_initial;

// The words of a place for certificates where masks have one word, and where they have 32.
const SMALL_WORDS: usize = 3;

const LARGE_WORDS: usize = 65;

// Whether a slot cannot make a parent ready: too few name a block there, by what the tray keeps in mind, and nothing else helps.
fn is_idle(rec: &[u64], looks: &[u64], s: Slot) -> bool
    requires { Carded rec.now s.0 }
    ensures { result ≡ is_idle (ledger_of rec.now) looks.now s.0 }
{
    if !is_short(rec, looks, s) {
        return false;
    }
    if names_kept(rec, s) {
        return false;
    }
    !held(rec, CertificateKind::Skip, s, 0)
}

// Whether rule A has a window to arm and may find a parent: genesis in slot 1, else in the slot before.
fn seeks_parent(rec: &[u64], looks: &[u64], s: Slot) -> bool
    requires { Carded rec.now s.0 }
    ensures { result ≡ seeks_parent (ledger_of rec.now) looks.now s.0 }
{
    if !may_arm(rec, s) {
        return false;
    }
    if s.0 == 1 {
        return true;
    }
    let before = s.0 - 1;
    !is_idle(rec, looks, Slot(before))
}

// Whether a slot is a window's first behind one that cannot make a parent ready.
fn is_stranded(rec: &[u64], looks: &[u64], s: Slot) -> bool
    requires { Carded rec.now s.0 }
    ensures { result ≡ is_stranded (ledger_of rec.now) looks.now s.0 }
{
    if !is_first(s) {
        return false;
    }
    if s.0 == 1 {
        return false;
    }
    let before = s.0 - 1;
    is_idle(rec, looks, Slot(before))
}

// The rule from which on a slot is asked: neither A nor B applies where no parent can be ready.
pub fn first_asked(rec: &[u64], looks: &[u64], s: Slot) -> usize
    requires { Carded rec.now s.0 }
    ensures { result ≡ first_asked (is_stranded (ledger_of rec.now) looks.now s.0) }
{
    if is_stranded(rec, looks, s) {
        return 2;
    }
    0
}

// Whether a slot has no own initial vote and keeps no block: places are filled from the front.
fn is_bare(rec: &[u64], s: Slot) -> bool
    requires { InSlot rec.now s.0 }
    ensures { result ≡ is_bare (ledger_of rec.now) s.0 }
{
    let b = load_block(rec, s, 0);
    no_initial(own_cell(rec, s)) & (b.number == 0)
}

// Whether one of a slot's places for certificates names a block, where a place has so many words; from is the first place's word. All are
// asked, with no branch between them.
fn some_name<const WORDS: usize>(rec: &[u64], from: usize) -> bool
    requires { 0 < WORDS × (from + most_certificates * WORDS ≤ length rec.now) }
    ensures { result ≡ names_from rec.now from WORDS most_certificates }
{
    let mut named = false;
    for place in rec[from..from + MOST_CERTIFICATES * WORDS].chunks_exact(WORDS) {
        named |= place[0] != 0;
    }
    named
}

// Whether a kept certificate of a slot names a block. In small records and in large ones it is known how far the places are apart, so that
// they are read without a loop.
fn names_kept(rec: &[u64], s: Slot) -> bool
    requires { InSlot rec.now s.0 }
    ensures { result ≡ names_kept (ledger_of rec.now) s.0 }
{
    let from = kept_start(rec, s, 0);
    if mask_words(places_in(rec)) == 1 {
        some_name::<SMALL_WORDS>(rec, from)
    } else {
        some_name::<LARGE_WORDS>(rec, from)
    }
}

// Whether votes may make another block final than the slot's final one: the leader is another and reaches 60.
fn leads_anew(rec: &[u64], s: Slot) -> bool
    requires { Carded rec.now s.0 }
    ensures { result ≡ leads_anew (ledger_of rec.now) s.0 }
{
    let card = load_card(rec, s);
    if card.leader == final_block(rec, s) {
        return false;
    }
    leader_held(rec, s)
}

// Whether a look that weighs nothing shows that no rule applies in a slot.
pub fn is_dormant(rec: &[u64], looks: &[u64], s: Slot) -> bool
    requires { Carded rec.now s.0 }
    ensures { result ≡ is_dormant (ledger_of rec.now) looks.now s.0 }
{
    if seeks_parent(rec, looks, s) {
        return false;
    }
    let named = names_kept(rec, s);
    if named | !is_bare(rec, s) {
        return false;
    }
    !leads_anew(rec, s)
}
