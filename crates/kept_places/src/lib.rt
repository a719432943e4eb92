// A slot's places for certificates from other firms by their kinds: looked through for room, for a repeat, for one that serves,
// and a certificate kept.
#![tactic(auto)]

ghost use Rattle.std.specs.Prelude.{◌≡◌, ◌<◌, ◌≤◌, IfSome, unwrap_or};
ghost use Rattle.rulebook.specs.Packets.{joined};
ghost use Rattle.rulebook.specs.Ledger.{most_certificates, certificates_at, put_certificates};
ghost use Rattle.rulebook.specs.Pool.{place_kind, same_kind, serves_as};
ghost use Rattle.rulebook.specs.Taking.{fill_kept};
ghost use Rattle.record.specs.Layout.{InSlot, InKept, ledger_of};
ghost use Rattle.kept_certificates.specs.Kept.{place_at};
ghost use Rattle.kept_places.specs.Seeking.{suits, wants, seeks, kind_of, from_place, to_place, first_place, Keeping};

use kept_certificates::{block_at, is_kept, store_certificate};
use record::MOST_CERTIFICATES;
use rulebook::{CertificateKind, Slot};
use std::ops::Range;

// What is looked for: room for a kind; a kind and block kept already; a kept certificate that serves as a kind for a block.
#[derive(Clone, Copy)]
pub enum Sought {
    Room(CertificateKind),
    Same(CertificateKind, u64),
    Serving(CertificateKind, u64),
}

// Whether a place is for certificates of a kind: 1, 2, 4, 5, then nine of 3.
fn is_place_of(n: usize, kind: CertificateKind) -> bool
    ensures { result ≡ same_kind (place_kind n) kind }
{
    match kind {
        CertificateKind::FastFinal => n == 0,
        CertificateKind::Notar => n == 1,
        CertificateKind::Skip => n == 2,
        CertificateKind::Final => n == 3,
        CertificateKind::NotarFallback => 4 <= n,
        CertificateKind::Other => false,
    }
}

// Whether what a place keeps serves as a kind: "a held kind 1 counts as 2, a 2 as 3".
fn serves_as(n: usize, kind: CertificateKind) -> bool
    ensures { result ≡ serves_as (place_kind n) kind }
{
    match kind {
        CertificateKind::Notar => n <= 1,
        CertificateKind::NotarFallback => (n <= 1) | (4 <= n),
        _ => is_place_of(n, kind),
    }
}

// Whether a place may be what is looked for by its kind and its block: only then are masks looked through.
#[tactic(auto, unfolding(crate::specs::Seeking::suits, rulebook::specs::Taking::is_repeat, rulebook::specs::Pool::is_for))]
fn suits(rec: &[u64], s: Slot, n: usize, sought: Sought) -> bool
    requires { InKept rec.now s.0 n }
    ensures { result ≡ suits sought n (place_at (ledger_of rec.now) s.0 n) }
{
    let block = block_at(rec, s, n);
    match sought {
        Sought::Room(k) => is_place_of(n, k),
        Sought::Same(k, b) => is_place_of(n, k) & (block == b),
        Sought::Serving(k, b) => serves_as(n, k) & (block == b),
    }
}

// Whether a place that keeps a certificate, or one that keeps none, is looked for.
#[tactic(auto, unfolding(crate::specs::Seeking::wants))]
fn wants(sought: Sought, kept: bool) -> bool
    ensures { result ≡ wants sought kept }
{
    match sought {
        Sought::Room(_) => !kept,
        Sought::Same(..) | Sought::Serving(..) => kept,
    }
}

// Whether a place is what is looked for.
fn is_sought(rec: &[u64], s: Slot, n: usize, sought: Sought) -> bool
    requires { InKept rec.now s.0 n }
    ensures { result ≡ seeks sought n (place_at (ledger_of rec.now) s.0 n) }
{
    suits(rec, s, n, sought) && wants(sought, is_kept(rec, s, n))
}

// The kind for which a place is looked for.
#[tactic(auto, unfolding(crate::specs::Seeking::kind_of))]
fn kind_of(sought: Sought) -> CertificateKind
    ensures { result ≡ kind_of sought }
{
    match sought {
        Sought::Room(k) | Sought::Same(k, _) | Sought::Serving(k, _) => k,
    }
}

// The places that can be of use for a kind.
#[tactic(auto, unfolding(crate::specs::Seeking::from_place, crate::specs::Seeking::to_place))]
fn places_for(kind: CertificateKind) -> Range<usize>
    ensures from { result.start ≡ from_place kind }
    ensures to { result.end ≡ to_place kind }
    ensures within { result.end ≤ most_certificates }
{
    match kind {
        CertificateKind::FastFinal => 0..1,
        CertificateKind::Notar => 0..2,
        CertificateKind::Skip => 2..3,
        CertificateKind::Final => 3..4,
        CertificateKind::NotarFallback | CertificateKind::Other => 0..MOST_CERTIFICATES,
    }
}

// The first of a slot's places that is what is looked for. Only those for its kind are asked.
pub fn first_place(rec: &[u64], s: Slot, sought: Sought) -> Option<usize>
    requires { InSlot rec.now s.0 }
    ensures first { unwrap_or result most_certificates ≡ first_place (seeks sought) 0 (certificates_at (ledger_of rec.now) s.0) }
    ensures within { IfSome result (λ n. n < most_certificates) }
{
    places_for(kind_of(sought)).find(|n| is_sought(rec, s, *n, sought))
}

// Keeps a certificate in the first free place for its kind; where there is none, nothing is kept.
pub fn keep_certificate(
    rec: &mut [u64],
    kind: CertificateKind,
    s: Slot,
    block: u64,
    a: &[u64],
    b: &[u64],
)
    requires { Keeping rec.old s.0 a.now b.now }
    ensures { ledger_of rec.new ≡ put_certificates (ledger_of rec.old) s.0 (fill_kept kind 0 (record { block = block; maska = joined a.now; maskb = joined b.now }) (certificates_at (ledger_of rec.old) s.0)) }
{
    if let Some(n) = first_place(rec, s, Sought::Room(kind)) {
        store_certificate(rec, s, n, block, a, b);
    }
}
