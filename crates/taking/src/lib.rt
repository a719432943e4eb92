// Certificates from other firms: a packet that the checker accepts is kept, and the rules run until none applies.
#![tactic(auto)]

ghost use Rattle.std.specs.Prelude.{◌≡◌, []};
ghost use Rattle.rulebook.specs.Ledger.{certificates_at};
ghost use Rattle.rulebook.specs.Rules.{state_of};
ghost use Rattle.rulebook.specs.Run.{run};
ghost use Rattle.rulebook.specs.Taking.{kept_verdict, keep_certificate};
ghost use Rattle.record.specs.Layout.{InSlot, ledger_of};
ghost use Rattle.voter.specs.Voting.{Onward};
ghost use Rattle.taking.specs.Taking.{certificate_in, Accepting, Keepable, TakeOf};

use certificate_numbers::{MOST_WORDS, read_certificate};
use checker::check_certificate;
use kept_places::{Sought, first_place, keep_certificate};
use record::{mask_words, places_in, stakes_of};
use rulebook::{Accepted, CertificateKind, Refusal, Slot};
use run::settle;
use soundness::sound;

// The least number of words of an outbox: 160 records of three words.
const OUTBOX_WORDS: usize = 480;

// 7 for a kind and block that the slot keeps already, 8 where no place for the kind is free.
fn kept_verdict(rec: &[u64], kind: CertificateKind, s: Slot, block: u64) -> Result<(), Refusal>
    requires { InSlot rec.now s.0 }
    ensures { result ≡ kept_verdict (certificates_at (ledger_of rec.now) s.0) kind block }
{
    if first_place(rec, s, Sought::Same(kind, block)).is_some() {
        return Err(Refusal::AlreadyKept);
    }
    if first_place(rec, s, Sought::Room(kind)).is_some() {
        return Ok(());
    }
    Err(Refusal::OtherStands)
}

// Keeps the certificate of an accepted packet: its masks are read again, and have as many words as the record's.
fn keep_packet(rec: &mut [u64], packet: &[u8], told: Accepted)
    requires { Accepting rec.old packet.now told }
    ensures { ledger_of rec.new ≡ keep_certificate (ledger_of rec.old) (certificate_in packet.now) }
{
    let mut a = [0u64; MOST_WORDS];
    let mut b = [0u64; MOST_WORDS];
    let _ = read_certificate(packet, 0, &mut a, &mut b);
    let words = mask_words(places_in(rec));
    keep_certificate(
        rec,
        told.kind,
        told.slot,
        told.block,
        &a[..words],
        &b[..words],
    );
}

// Keeps the certificate of an accepted packet that has a place, and runs the rules until none applies.
fn act(rec: &mut [u64], outbox: &mut [u64], packet: &[u8], told: Accepted) -> usize
    requires { Keepable rec.old outbox.old packet.now told }
    ensures { Onward rec.old outbox.old 0 rec.new outbox.new result (run (state_of (keep_certificate (ledger_of rec.old) (certificate_in packet.now)) [])) }
{
    keep_packet(rec, packet, told);
    settle(rec, outbox, 0)
}

// One certificate packet: refused with 17, 9, as the checker has it, 7 or 8, with all memory as found; or taken.
pub fn take(rec: &mut [u64], outbox: &mut [u64], packet: &[u8]) -> Result<usize, Refusal>
    ensures { TakeOf rec.old outbox.old packet.now result rec.new outbox.new }
{
    if !sound(rec) {
        return Err(Refusal::BadRecord);
    }
    if outbox.len() < OUTBOX_WORDS {
        return Err(Refusal::NoRoom);
    }
    let told = check_certificate(stakes_of(rec), packet)?;
    kept_verdict(rec, told.kind, told.slot, told.block)?;
    Ok(act(rec, outbox, packet, told))
}
