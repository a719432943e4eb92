// The certificates from other firms that a slot keeps, as an accepted check tells them, and as lines in a lent list.
#![tactic(auto)]

ghost use Rattle.std.specs.Prelude.{◌≡◌, [], ◌∷◌, ◌+◌, ◌≤◌, length};
ghost use Rattle.record.specs.Layout.{ledger_of};
ghost use Rattle.kept_audit.specs.Judging.{Judging};
ghost use Rattle.kept_lines.specs.Told.{told_of, place_told, certificates_told, Telling};
ghost use Rattle.kept_lines.specs.Lent.{Laid, most_lines, listed_in, ToldIn, certificates_on, AtPlace};

use cards::asked;
use differences::put_row;
use inquest_lines::{ListRefusal, list_lines};
use kept_certificates::{block_at, is_kept, mask_a, mask_b, place_kind};
use kinds::number_in;
use record::{MOST_CERTIFICATES, count, stakes_of};
use rulebook::{Accepted, Slot};

// What the checker tells of the certificate in one of a slot's places.
pub fn told_of(rec: &[u64], s: Slot, place: usize) -> Accepted
    requires { Telling rec.now s.0 place }
    ensures { result ≡ told_of (ledger_of rec.now) s.0 place }
{
    let block = block_at(rec, s, place);
    let stakes = stakes_of(rec);
    let a = mask_a(rec, s, place);
    let b = mask_b(rec, s, place);
    let signed = stakes::weigh(stakes, a, b);
    Accepted {
        kind: place_kind(place),
        slot: s,
        block,
        signers: signed.signers,
        weight: signed.weight,
    }
}

// Puts the line of a certificate of a ring of so many nodes behind the first `at`, as far as the list reaches, and answers how many lines
// there are then.
fn put_told(list: &mut [u64], at: usize, nodes: usize, x: Accepted) -> usize
    requires { at + 1 ≤ most_lines }
    ensures { Laid nodes list.old at (x ∷ []) list.new result }
{
    let row = [
        number_in(nodes, x.kind),
        x.slot.0 as u64,
        x.block,
        x.signers,
        x.weight.0,
    ];
    put_row(list, at, row)
}

// Puts the line of the certificate in one of a slot's places, where it keeps one.
fn put_place(list: &mut [u64], at: usize, rec: &[u64], s: Slot, n: usize) -> usize
    requires { AtPlace rec.now s.0 n at }
    ensures { Laid (ledger_of rec.now).count list.old at (place_told (ledger_of rec.now) s.0 n) list.new result }
{
    if !is_kept(rec, s, n) {
        return at;
    }
    put_told(list, at, count(rec), told_of(rec, s, n))
}

// The same of all places of a slot, in their order; answers how many lines there are, also where the list is too short for them.
fn put_places(list: &mut [u64], rec: &[u64], s: Slot) -> usize
    requires { Judging rec.now s.0 }
    ensures { Laid (ledger_of rec.now).count list.old 0 (certificates_told (ledger_of rec.now) s.0) list.new result }
{
    let mut next = 0;
    for n in 0..MOST_CERTIFICATES {
        next = put_place(list, next, rec, s, n);
    }
    next
}

// Lists the kept certificates of a slot, counted first: where they have no room, nothing is put.
fn list_places(list: &mut [u64], rec: &[u64], s: Slot) -> Result<usize, ListRefusal>
    requires { Judging rec.now s.0 }
    ensures { ToldIn list.old (listed_in (length list.old) (ledger_of rec.now).count (certificates_told (ledger_of rec.now) s.0)) result list.new }
{
    list_lines(list, |part| put_places(part, rec, s))
}

// The certificates that a slot keeps, as lines from the list's front: refused with 17, then 3, then 9 and the number of lines needed, and the
// list as found.
pub fn list_certificates(rec: &[u64], s: Slot, list: &mut [u64]) -> Result<usize, ListRefusal>
    ensures { ToldIn list.old (certificates_on rec.now s.0 (length list.old)) result list.new }
{
    asked(rec, s)?;
    list_places(list, rec, s)
}
