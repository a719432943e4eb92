// The certificate writer and the proof writer: packets of the stored signers, or of those of a kept certificate, in lent bytes.
#![tactic(auto)]

ghost use Rattle.std.specs.Prelude.{◌≡◌, true, length};
ghost use Rattle.rulebook.specs.Packets.{certificate_bytes};
ghost use Rattle.rulebook.specs.Pool.{held, kept_as};
ghost use Rattle.rulebook.specs.Writers.{voted_for, certificate_for, certificate_room, proof_room, certificate_verdict, proof_verdict, proof_bytes, Writes};
ghost use Rattle.record.specs.Layout.{ledger_of};
ghost use Rattle.soundness.specs.Sound.{sound_words};
ghost use Rattle.numbers.specs.Written.{Written};
ghost use Rattle.writers.specs.Writing.{certificate_on, proof_on, kept_certificate, Laying, Proving};

use candidates::is_final;
use certificate_numbers::{MOST_WORDS, words_in};
use kept_certificates::{mask_a, mask_b};
use kinds::{block_misfits, is_other, kind_in, number_in, slot_ok};
use pool::{held, missing_to};
use record::count;
use rulebook::{CertificateKind, Heading, Refusal, Slot};
use signers::{certificate_for, kept_place};
use soundness::sound;

// The bytes that a certificate is asked to have room for, by the table's size, and those for a proof: two certificates.
#[tactic(auto, unfolding(rulebook::specs::Writers::certificate_room, rulebook::specs::Weights::is_large, rulebook::specs::Tools::choose))]
fn certificate_room(count: usize) -> usize
    ensures { result ≡ certificate_room count }
{
    if 64 < count { 768 } else { 32 }
}

#[tactic(auto, unfolding(rulebook::specs::Writers::certificate_room, rulebook::specs::Writers::proof_room, rulebook::specs::Weights::is_large, rulebook::specs::Tools::choose))]
fn proof_room(count: usize) -> usize
    ensures { result ≡ proof_room count }
{
    2 * certificate_room(count)
}

// 9, 4, 3, 5, 18, in this order, for a certificate.
fn judge_certificate(
    rec: &[u64],
    room: usize,
    kind: CertificateKind,
    s: Slot,
    b: u64,
) -> Result<(), Refusal>
    requires { sound_words rec.now ≡ true }
    ensures { result ≡ certificate_verdict (ledger_of rec.now) room kind s.0 b }
{
    let least = certificate_room(count(rec));
    if room < least {
        return Err(Refusal::NoRoom);
    }
    if is_other(kind) {
        return Err(Refusal::BadKind);
    }
    if !slot_ok(s) {
        return Err(Refusal::BadSlot);
    }
    if block_misfits(kind, b) {
        return Err(Refusal::BadBlock);
    }
    if !held(rec, kind, s, b) {
        return Err(Refusal::NotHeld);
    }
    Ok(())
}

// 9, 3, 5, 18, in this order, for a proof.
fn judge_proof(rec: &[u64], room: usize, s: Slot, b: u64) -> Result<(), Refusal>
    requires { sound_words rec.now ≡ true }
    ensures { result ≡ proof_verdict (ledger_of rec.now) room s.0 b }
{
    let least = proof_room(count(rec));
    if room < least {
        return Err(Refusal::NoRoom);
    }
    if !slot_ok(s) {
        return Err(Refusal::BadSlot);
    }
    if b == 0 {
        return Err(Refusal::BadBlock);
    }
    if !is_final(rec, s, b) {
        return Err(Refusal::NotHeld);
    }
    Ok(())
}

// Writes the certificate of the stored signers from a place of the buffer on and answers the place after it; its masks stand in words
// between.
fn lay_voted(
    rec: &[u64],
    buffer: &mut [u8],
    at: usize,
    kind: CertificateKind,
    s: Slot,
    b: u64,
) -> usize
    requires { Laying rec.now buffer.old at kind s.0 (voted_for (ledger_of rec.now) kind s.0 b) }
    ensures { Written buffer.old at (certificate_bytes (voted_for (ledger_of rec.now) kind s.0 b)) buffer.new result }
{
    let mut x = [0u64; MOST_WORDS];
    let mut y = [0u64; MOST_WORDS];
    let words = words_in(number_in(count(rec), kind));
    let c = certificate_for(rec, kind, s, b, &mut x[..words], &mut y[..words]);
    certificate_numbers::write_certificate(buffer, at, c, &x[..words], &y[..words])
}

// Likewise with the masks of a kept certificate, as the record has them.
fn lay_kept(
    rec: &[u64],
    buffer: &mut [u8],
    at: usize,
    kind: CertificateKind,
    s: Slot,
    b: u64,
) -> usize
    requires { (Laying rec.now buffer.old at kind s.0 (kept_certificate (ledger_of rec.now) kind s.0 b)) × (kept_as (ledger_of rec.now) kind s.0 b ≡ true) }
    ensures { Written buffer.old at (certificate_bytes (kept_certificate (ledger_of rec.now) kind s.0 b)) buffer.new result }
{
    let n = kept_place(rec, kind, s, b);
    let x = mask_a(rec, s, n);
    let y = mask_b(rec, s, n);
    let c = Heading {
        kind: number_in(count(rec), kind),
        slot: s,
        block: b,
    };
    certificate_numbers::write_certificate(buffer, at, c, x, y)
}

// Writes a certificate that is held: of the stored signers where they reach it, else with kept masks.
fn lay_certificate(
    rec: &[u64],
    buffer: &mut [u8],
    at: usize,
    kind: CertificateKind,
    s: Slot,
    b: u64,
) -> usize
    requires { (Laying rec.now buffer.old at kind s.0 (certificate_for (ledger_of rec.now) kind s.0 b)) × (held (ledger_of rec.now) kind s.0 b ≡ true) }
    ensures { Written buffer.old at (certificate_bytes (certificate_for (ledger_of rec.now) kind s.0 b)) buffer.new result }
{
    let missing = missing_to(rec, kind, s, b);
    if missing.0 == 0 {
        return lay_voted(rec, buffer, at, kind, s, b);
    }
    lay_kept(rec, buffer, at, kind, s, b)
}

// Writes a proof from the buffer's front: kind 1 where it is held, else kind 2 and then kind 5.
fn lay_proof(rec: &[u64], buffer: &mut [u8], s: Slot, b: u64) -> usize
    requires { Proving rec.now buffer.old s.0 b }
    ensures { Written buffer.old 0 (proof_bytes (ledger_of rec.now) s.0 b) buffer.new result }
{
    if held(rec, CertificateKind::FastFinal, s, b) {
        return lay_certificate(rec, buffer, 0, CertificateKind::FastFinal, s, b);
    }
    let next = lay_certificate(rec, buffer, 0, CertificateKind::Notar, s, b);
    lay_certificate(rec, buffer, next, CertificateKind::Final, s, 0)
}

// Writes the certificate of a kind, asked for by its number in the record's table, for a slot and a block, where it is held.
pub fn write_certificate(
    rec: &[u64],
    buffer: &mut [u8],
    kind: u64,
    slot: Slot,
    block: u64,
) -> Result<usize, Refusal>
    ensures { Writes (certificate_on rec.now (length buffer.old) kind slot.0 block) buffer.old result buffer.new }
{
    if !sound(rec) {
        return Err(Refusal::BadRecord);
    }
    let asked = kind_in(count(rec), kind);
    judge_certificate(rec, buffer.len(), asked, slot, block)?;
    Ok(lay_certificate(rec, buffer, 0, asked, slot, block))
}

// Writes the finality proof of a block in a slot, where it is held.
pub fn write_proof(rec: &[u64], buffer: &mut [u8], slot: Slot, block: u64) -> Result<usize, Refusal>
    ensures { Writes (proof_on rec.now (length buffer.old) slot.0 block) buffer.old result buffer.new }
{
    if !sound(rec) {
        return Err(Refusal::BadRecord);
    }
    judge_proof(rec, buffer.len(), slot, block)?;
    Ok(lay_proof(rec, buffer, slot, block))
}
