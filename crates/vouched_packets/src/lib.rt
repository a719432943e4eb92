// What a packet counts a record's firm for and the record lacks, as lines in a lent list; and where the first certificate of a finality
// proof ends.
#![tactic(auto)]

ghost use Rattle.std.specs.Prelude.{◌≡◌, length};
ghost use Rattle.rulebook.specs.Ledger.{own_cell};
ghost use Rattle.rulebook.specs.Packets.{certificate_of, certificate_at};
ghost use Rattle.record.specs.Layout.{Long, ledger_of};
ghost use Rattle.inquest.specs.Lists.{found_lacks, lacking_in};
ghost use Rattle.inquest_lines.specs.Lent.{Laid, ToldIn, listed_in};
ghost use Rattle.vouched_packets.specs.Split.{split_on};
ghost use Rattle.vouched_packets.specs.Asked.{first_end, check_packet, read_lacks, Reading, PacketOf};

use certificate_numbers::{MOST_WORDS, read_certificate, words_in};
use checker::{check_certificate, check_proof};
use inquest_lines::{ListRefusal, list_lines};
use kinds::kind_in;
use record::{LAST_SLOT, count, is_watcher, own, own_cell, stakes_of};
use rulebook::{Accepted, Cell, Heading, Refusal, Slot};
use signer_lines::{Signer, names, put_signer};
use soundness::sound;

// Where the packet's first certificate ends; the packet's end where there is none.
fn first_end(packet: &[u8]) -> usize
    ensures { result ≡ first_end packet.now }
{
    let mut a = [0u64; MOST_WORDS];
    let mut b = [0u64; MOST_WORDS];
    match read_certificate(packet, 0, &mut a, &mut b) {
        Ok((_, next)) => next,
        Err(_) => packet.len(),
    }
}

// A packet of one certificate is checked as one, a longer one as a proof.
fn check_packet(stakes: &[u64], packet: &[u8]) -> Result<Accepted, Refusal>
    ensures { result ≡ check_packet stakes.now packet.now }
{
    if first_end(packet) < packet.len() {
        return check_proof(stakes, packet);
    }
    check_certificate(stakes, packet)
}

// The own votes in a slot; one past the last has none.
fn cell_of(rec: &[u64], s: Slot) -> Cell
    requires { Long rec.now }
    ensures { result ≡ own_cell (ledger_of rec.now) s.0 }
{
    if s.0 <= LAST_SLOT {
        return own_cell(rec, s);
    }
    Cell {
        notar: 0,
        skip: 0,
        fallback1: 0,
        fallback2: 0,
        fallback3: 0,
        skipfallback: 0,
        finalvote: 0,
    }
}

// Puts the lines of a certificate by its heading and the words of its masks.
fn put_read(list: &mut [u64], at: usize, rec: &[u64], c: Heading, a: &[u64], b: &[u64]) -> usize
    requires { Reading rec.now at }
    ensures { Laid list.old at (read_lacks (ledger_of rec.now) (certificate_of c a.now b.now)) list.new result }
{
    let slot = c.slot;
    let node = own(rec);
    let x = Signer {
        kind: kind_in(count(rec), c.kind),
        slot,
        node,
        block: c.block,
        a: names(a, node),
        b: names(b, node),
    };
    put_signer(list, at, x, cell_of(rec, slot))
}

// Puts the lines of the certificate at a place of the packet, none where there is none.
fn put_found(list: &mut [u64], at: usize, rec: &[u64], packet: &[u8], from: usize) -> usize
    requires { Reading rec.now at }
    ensures { Laid list.old at (found_lacks (ledger_of rec.now) (certificate_at packet.now from)) list.new result }
{
    let mut a = [0u64; MOST_WORDS];
    let mut b = [0u64; MOST_WORDS];
    match read_certificate(packet, from, &mut a, &mut b) {
        Ok((c, _)) => {
            let words = words_in(c.kind);
            put_read(list, at, rec, c, &a[..words], &b[..words])
        }
        Err(_) => at,
    }
}

// Puts the lines of the packet, and answers how many there are, also where the list is too short for them.
fn put_packet(list: &mut [u64], rec: &[u64], packet: &[u8]) -> usize
    requires { Long rec.now }
    ensures { Laid list.old 0 (lacking_in (ledger_of rec.now) packet.now) list.new result }
{
    let next = put_found(list, 0, rec, packet, 0);
    put_found(list, next, rec, packet, first_end(packet))
}

// Lists them, counted first: where they have no room, nothing is put.
fn list_packet(list: &mut [u64], rec: &[u64], packet: &[u8]) -> Result<usize, ListRefusal>
    requires { Long rec.now }
    ensures { ToldIn list.old (listed_in (length list.old) (lacking_in (ledger_of rec.now) packet.now)) result list.new }
{
    list_lines(list, |part| put_packet(part, rec, packet))
}

// Which votes a packet counts the record's firm for and the record lacks, as lines from the list's front; a watcher has no firm's votes.
// Refused with 17, as the checker refuses the packet under the record's stakes, or with 9 and the number of lines needed, and the list as
// found.
pub fn vouched_packet(rec: &[u64], packet: &[u8], list: &mut [u64]) -> Result<usize, ListRefusal>
    ensures { PacketOf rec.now packet.now list.old result list.new }
{
    if !sound(rec) {
        return Err(ListRefusal::Refused(Refusal::BadRecord));
    }
    check_packet(stakes_of(rec), packet)?;
    if is_watcher(rec) {
        return Ok(0);
    }
    list_packet(list, rec, packet)
}

// Where a finality proof falls into its certificates, each of which a node takes by itself: the bytes of the first, all of them where it is
// the only one. Refused with 17, or as the proof checker refuses the packet under the record's stakes.
pub fn split_proof(rec: &[u64], packet: &[u8]) -> Result<usize, Refusal>
    ensures { result ≡ split_on rec.now packet.now }
{
    if !sound(rec) {
        return Err(Refusal::BadRecord);
    }
    check_proof(stakes_of(rec), packet)?;
    Ok(first_end(packet))
}
