// What a writer wrote, read back by the checker with the record's own stakes.
#![tactic(auto)]

ghost use Rattle.std.specs.Prelude.{length};
ghost use Rattle.record.specs.Layout.{ledger_of};
ghost use Rattle.writers.specs.Writing.{kind_on, certificate_on, proof_on};
ghost use Rattle.readback.specs.ReadBack.{ReadsBack};
ghost use Rattle.packets.specs.Promises.{accepted_for, proof_kind};

use checker::{check_certificate, check_proof};
use record::stakes_of;
use rulebook::{Accepted, Refusal, Slot};
use writers::{write_certificate, write_proof};

// Writes a certificate, asked for by its kind's number, and has it checked: one that is written is accepted, with its signers and
// their weight.
pub fn certificate_read_back(
    rec: &[u64],
    buffer: &mut [u8],
    kind: u64,
    slot: Slot,
    block: u64,
) -> Result<Accepted, Refusal>
    ensures { ReadsBack (certificate_on rec.now (length buffer.old) kind slot.0 block) (accepted_for (ledger_of rec.now) (kind_on rec.now kind) slot.0 block) buffer.old result buffer.new }
{
    let n = write_certificate(rec, buffer, kind, slot, block)?;
    check_certificate(stakes_of(rec), &buffer[0..n])
}

// Writes a finality proof and has it checked: one that is written is accepted, as its first certificate says.
pub fn proof_read_back(
    rec: &[u64],
    buffer: &mut [u8],
    slot: Slot,
    block: u64,
) -> Result<Accepted, Refusal>
    ensures { ReadsBack (proof_on rec.now (length buffer.old) slot.0 block) (accepted_for (ledger_of rec.now) (proof_kind (ledger_of rec.now) slot.0 block) slot.0 block) buffer.old result buffer.new }
{
    let n = write_proof(rec, buffer, slot, block)?;
    check_proof(stakes_of(rec), &buffer[0..n])
}
