// The 17 test of kept certificates: each is judged as the checker would with the record's stakes, places are filled from the front
// and no block is kept twice for one kind.
#![tactic(auto)]

ghost use Rattle.std.specs.Prelude.{◌≡◌};
ghost use Rattle.rulebook.specs.Tools.{all_to};
ghost use Rattle.rulebook.specs.Ledger.{table_of, certificates_at, kept_at};
ghost use Rattle.rulebook.specs.Pool.{place_kind};
ghost use Rattle.rulebook.specs.WellFormed.{certificate_fits, certificates_fit};
ghost use Rattle.rule_laws.proofs.KeptPlaceLaws.{turn_at};
ghost use Rattle.record.specs.Layout.{ledger_of};
ghost use Rattle.kept_audit.specs.Judging.{Judging, JudgingPlace, InTurn};

use certificates::accepts;
use kept_certificates::{block_at, is_kept, mask_a, mask_b, nothing_kept};
use record::{MOST_CERTIFICATES, count, stakes_of, total};
use rulebook::{CertificateKind, Slot};
use stakes::LentTable;

// The kind of one of a slot's places: 1, 2, 4, 5, then 3.
fn place_kind(n: usize) -> CertificateKind
    ensures { result ≡ place_kind n }
{
    if n == 0 {
        return CertificateKind::FastFinal;
    }
    if n == 1 {
        return CertificateKind::Notar;
    }
    if n == 2 {
        return CertificateKind::Skip;
    }
    if n == 3 {
        return CertificateKind::Final;
    }
    CertificateKind::NotarFallback
}

// What one of a slot's places keeps, judged as the kind of the place; where nothing is kept its block is 0.
fn certificate_fits(rec: &[u64], t: LentTable, s: Slot, n: usize, kept: bool) -> bool
    requires { JudgingPlace rec.now t s.0 n kept }
    ensures { result ≡ certificate_fits (table_of (ledger_of rec.now)) s.0 n (kept_at (ledger_of rec.now) s.0 n) }
{
    let block = block_at(rec, s, n);
    if !kept {
        return block == 0;
    }
    let stakes = stakes_of(rec);
    let a = mask_a(rec, s, n);
    let b = mask_b(rec, s, n);
    accepts(stakes, t, place_kind(n), s, block, a, b)
}

// Whether a place is in turn behind every place before it: only those of kind 3, from place 4 on, share a kind with one before them.
fn is_behind(rec: &[u64], s: Slot, n: usize, kept: bool, filled: bool) -> bool
    requires { InTurn rec.now s.0 n kept filled }
    ensures { result ≡ all_to n (λ m. turn_at (certificates_at (ledger_of rec.now) s.0) m n) }
{
    if !(kept & (4 < n)) {
        return true;
    }
    let block = block_at(rec, s, n);
    for m in 4..n {
        if block_at(rec, s, m) == block {
            return false;
        }
    }
    filled
}

// Whether a slot's kept certificates fit. Where nothing is kept no certificate is judged. Each place is asked once whether it keeps
// one: of places in turn the last tells whether all of kind 3 so far do.
pub fn certificates_fit(rec: &[u64], s: Slot) -> bool
    requires { Judging rec.now s.0 }
    ensures { result ≡ certificates_fit (table_of (ledger_of rec.now)) s.0 (certificates_at (ledger_of rec.now) s.0) }
{
    if nothing_kept(rec, s) {
        return true;
    }
    let t = LentTable {
        count: count(rec),
        total: total(rec),
    };
    let mut filled = true;
    for n in 0..MOST_CERTIFICATES {
        let kept = is_kept(rec, s, n);
        if !is_behind(rec, s, n, kept, filled) {
            return false;
        }
        if !certificate_fits(rec, t, s, n, kept) {
            return false;
        }
        filled = kept;
    }
    true
}
