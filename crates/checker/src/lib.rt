// The checker of certificates and finality proofs, on lent stakes and a lent packet.
#![tactic(auto)]

ghost use Rattle.std.specs.Prelude.{◌≡◌, IfOk, IfErr, Ok};
ghost use Rattle.rulebook.specs.Checker.{check_certificate, check_proof};
ghost use Rattle.stakes.specs.Table.{Fit};
ghost use Rattle.checker.specs.InPacket.{finished, followed, continued, single_on, proven_on, Weighs, Unfit};

use certificates::one_at;
use rulebook::{Accepted, CertificateKind, Refusal, Weight};
use stakes::{LentTable, StakeTable, TABLE_NODES, fill_table, make_table};

// Leftover bytes last.
#[tactic(auto, unfolding(crate::specs::InPacket::finished, rulebook::specs::Tools::whenever))]
fn finish(a: Accepted, next: usize, length: usize) -> Result<Accepted, Refusal>
    ensures { result ≡ finished a next length }
{
    if next < length {
        Err(Refusal::BadLength)
    } else {
        Ok(a)
    }
}

// What the second certificate, told as f, makes of a proof whose first is told as a: 16 unless it is kind 5 of that slot.
#[tactic(auto, unfolding(crate::specs::InPacket::followed, crate::specs::InPacket::is_final_kind, rulebook::specs::Tools::whenever))]
fn second(a: Accepted, f: Accepted, next: usize, length: usize) -> Result<Accepted, Refusal>
    ensures { result ≡ followed a length (Ok (f, next)) }
{
    if (f.kind == CertificateKind::Final) & (f.slot == a.slot) {
        finish(a, next, length)
    } else {
        Err(Refusal::NotAProof)
    }
}

// What follows the first certificate of a proof, told as a: 16 unless its kind is 1 or 2.
#[tactic(auto, unfolding(crate::specs::InPacket::continued, crate::specs::InPacket::followed))]
fn after_first(
    stakes: &[u64],
    t: LentTable,
    packet: &[u8],
    a: Accepted,
    next: usize,
) -> Result<Accepted, Refusal>
    requires { Fit stakes.now t }
    ensures { result ≡ continued stakes.now packet.now a.kind a next }
{
    match a.kind {
        CertificateKind::FastFinal => finish(a, next, packet.len()),
        CertificateKind::Notar => {
            let (f, past) = one_at(stakes, t, packet, next)?;
            second(a, f, past, packet.len())
        }
        _ => Err(Refusal::NotAProof),
    }
}

// A packet that is to be one certificate, on stakes that fit.
#[tactic(auto, using(crate::proofs::Laws::single_answer), unfolding(crate::specs::InPacket::alone))]
fn certificate_on(stakes: &[u64], t: LentTable, packet: &[u8]) -> Result<Accepted, Refusal>
    requires { Fit stakes.now t }
    ensures { result ≡ single_on stakes.now packet.now }
{
    let (a, next) = one_at(stakes, t, packet, 0)?;
    finish(a, next, packet.len())
}

// A packet that is to be a finality proof, on such stakes: kind 1, or kind 2 and then kind 5 of the same slot.
fn proof_on(stakes: &[u64], t: LentTable, packet: &[u8]) -> Result<Accepted, Refusal>
    requires { Fit stakes.now t }
    ensures { result ≡ proven_on stakes.now packet.now }
{
    let (first, next) = one_at(stakes, t, packet, 0)?;
    after_first(stakes, t, packet, first, next)
}

// The stakes that a check weighs, with their table: up to 64 nodes stand in a stake table, above that they stay where they are lent.
fn placed<'a>(
    stakes: &'a [u64],
    table: &'a mut StakeTable,
) -> Result<(&'a [u64], LentTable), Refusal>
    ensures ok { IfOk result (λ p. Weighs stakes.now p.0.now p.1) }
    ensures err { IfErr result (Unfit stakes.now) }
{
    let lent = make_table(stakes).ok_or(Refusal::BadSizes)?;
    if TABLE_NODES < lent.count {
        return Ok((stakes, lent));
    }
    fill_table(&mut table.stakes, stakes);
    table.count = lent.count;
    table.total = lent.total;
    Ok((&table.stakes[..lent.count], lent))
}

// A stake table of no node.
const NO_STAKES: StakeTable = StakeTable {
    stakes: [0; TABLE_NODES],
    count: 0,
    total: Weight(0),
};

// Checks a packet that is to be one certificate.
pub fn check_certificate(stakes: &[u64], packet: &[u8]) -> Result<Accepted, Refusal>
    ensures { result ≡ check_certificate stakes.now packet.now }
{
    let mut table = NO_STAKES;
    let (on, t) = placed(stakes, &mut table)?;
    certificate_on(on, t, packet)
}

// Checks a packet that is to be a finality proof.
pub fn check_proof(stakes: &[u64], packet: &[u8]) -> Result<Accepted, Refusal>
    ensures { result ≡ check_proof stakes.now packet.now }
{
    let mut table = NO_STAKES;
    let (on, t) = placed(stakes, &mut table)?;
    proof_on(on, t, packet)
}
