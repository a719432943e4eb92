// What one record counts in the name of another's firm and that firm's own record lacks, as lines in a lent list.
#![tactic(auto)]

ghost use Rattle.std.specs.Prelude.{◌≡◌, length};
ghost use Rattle.rulebook.specs.Ledger.{certificates_at};
ghost use Rattle.record.specs.Layout.{ledger_of};
ghost use Rattle.kept_certificates.specs.Kept.{place_at};
ghost use Rattle.inquest.specs.Lists.{place_lacks, kept_lacks, slot_lacks, lacking};
ghost use Rattle.inquest_lines.specs.Lent.{Laid, ToldIn, listed_in};
ghost use Rattle.vouching.specs.Asked.{AtPlace, InPlaces, Comparing, Firms, comparable_on, VouchedOf};

use differences::{both_sound, same_tables};
use inquest_lines::{ListRefusal, list_lines};
use kept_certificates::{block_at, is_kept, mask_a, mask_b, place_kind};
use record::{LAST_SLOT, MOST_CERTIFICATES, is_watcher, load_cell, own, own_cell};
use rulebook::{Cell, Node, Refusal, Slot};
use signer_lines::{Signer, names, put_cell, put_signer};

// Puts the lines of what one of a slot's places counts firm m for and the cell lacks.
fn put_place(list: &mut [u64], at: usize, rec: &[u64], s: Slot, n: usize, m: Node, d: Cell) -> usize
    requires { AtPlace rec.now s.0 n at }
    ensures { Laid list.old at (place_lacks s.0 m.0 d n (place_at (ledger_of rec.now) s.0 n)) list.new result }
{
    if !is_kept(rec, s, n) {
        return at;
    }
    let x = Signer {
        kind: place_kind(n),
        slot: s,
        node: m,
        block: block_at(rec, s, n),
        a: names(mask_a(rec, s, n), m),
        b: names(mask_b(rec, s, n), m),
    };
    put_signer(list, at, x, d)
}

// The same of all places of a slot, in their order.
fn put_places(list: &mut [u64], at: usize, rec: &[u64], s: Slot, m: Node, d: Cell) -> usize
    requires { InPlaces rec.now s.0 at }
    ensures { Laid list.old at (kept_lacks s.0 m.0 d (certificates_at (ledger_of rec.now) s.0)) list.new result }
{
    let mut next = at;
    for n in 0..MOST_CERTIFICATES {
        next = put_place(list, next, rec, s, n, m, d);
    }
    next
}

// Puts the lines of a slot: stored votes, then kept certificates.
fn put_slot(list: &mut [u64], at: usize, one: &[u64], two: &[u64], s: Slot) -> usize
    requires { Comparing one.now two.now s.0 at }
    ensures { Laid list.old at (slot_lacks (ledger_of one.now) (ledger_of two.now) s.0) list.new result }
{
    let m = own(two);
    let c = load_cell(one, s, m);
    let d = own_cell(two, s);
    let next = put_cell(list, at, s, m, c, d);
    put_places(list, next, one, s, m, d)
}

// Puts the lines of all slots, and answers how many there are, also where the list is too short for them.
fn put_slots(list: &mut [u64], one: &[u64], two: &[u64]) -> usize
    requires { Firms one.now two.now }
    ensures { Laid list.old 0 (lacking (ledger_of one.now) (ledger_of two.now)) list.new result }
{
    let mut next = 0;
    for i in 0..LAST_SLOT {
        next = put_slot(list, next, one, two, Slot(i + 1));
    }
    next
}

// Lists the votes that the second record lacks, counted first: where they have no room, nothing is put.
fn list_lacking(list: &mut [u64], one: &[u64], two: &[u64]) -> Result<usize, ListRefusal>
    requires { Firms one.now two.now }
    ensures { ToldIn list.old (listed_in (length list.old) (lacking (ledger_of one.now) (ledger_of two.now))) result list.new }
{
    list_lines(list, |part| put_slots(part, one, two))
}

// Whether two records can be compared: 17 with the side, then 1 where the stake tables differ.
pub fn comparable(one: &[u64], two: &[u64]) -> Result<(), ListRefusal>
    ensures { result ≡ comparable_on one.now two.now }
{
    both_sound(one, two).map_err(ListRefusal::BadRecord)?;
    if !same_tables(one, two) {
        return Err(ListRefusal::Refused(Refusal::BadSizes));
    }
    Ok(())
}

// Which votes the first record counts in the name of the second's firm and the second record lacks, as lines from the list's front; a
// watcher has no firm's votes. Refused with 17 and the side, with 1 where the stake tables differ, or with 9 and the number of lines
// needed, and the list as found.
pub fn vouched(one: &[u64], two: &[u64], list: &mut [u64]) -> Result<usize, ListRefusal>
    ensures { VouchedOf one.now two.now list.old result list.new }
{
    comparable(one, two)?;
    if is_watcher(two) {
        return Ok(0);
    }
    list_lacking(list, one, two)
}
