// The signers that a certificate names: those that a record has stored, as masks in lent words and with the certificate, or those of
// a kept certificate, by its place.
#![tactic(auto)]

ghost use Rattle.std.specs.Prelude.{◌≡◌, ◌+◌, ◌-◌, min};
ghost use Rattle.rulebook.specs.Ledger.{cell_at, certificates_at, kept_at};
ghost use Rattle.rulebook.specs.Packets.{mask_of, joined, certificate_of};
ghost use Rattle.rulebook.specs.Writers.{in_a, in_b, voted_for, kept_for};
ghost use Rattle.record.specs.Layout.{InSlot, ledger_of};
ghost use Rattle.signers.specs.Masks.{in_mask, Signing, Wide, Naming};

use cells::has_fallback;
use kept_places::{Sought, first_place};
use kinds::number_in;
use record::{MOST_CERTIFICATES, count, load_cell};
use rulebook::{Cell, CertificateKind, Heading, Node, Slot};

// The two masks of a certificate.
#[derive(Clone, Copy, Debug, PartialEq, Eq)]
pub enum Mask {
    A,
    B,
}

// Whether a node's initial or final vote counts.
#[tactic(auto, unfolding(rulebook::specs::Writers::in_a))]
fn in_a(kind: CertificateKind, b: u64, c: Cell) -> bool
    ensures { result ≡ in_a kind b c }
{
    match kind {
        CertificateKind::FastFinal | CertificateKind::Notar | CertificateKind::NotarFallback => {
            c.notar == b
        }
        CertificateKind::Skip => c.skip != 0,
        CertificateKind::Final => c.finalvote != 0,
        CertificateKind::Other => false,
    }
}

// Whether a node counts by a fallback alone.
#[tactic(auto, unfolding(rulebook::specs::Writers::in_b))]
fn in_b(kind: CertificateKind, b: u64, c: Cell) -> bool
    ensures { result ≡ in_b kind b c }
{
    match kind {
        CertificateKind::NotarFallback => has_fallback(b, c) & (c.notar != b),
        CertificateKind::Skip => (c.skipfallback != 0) & (c.skip == 0),
        CertificateKind::FastFinal
        | CertificateKind::Notar
        | CertificateKind::Final
        | CertificateKind::Other => false,
    }
}

// Whether a mask names a node, by what is kept of it.
#[tactic(auto, unfolding(crate::specs::Masks::in_mask))]
fn in_mask(which: Mask, kind: CertificateKind, b: u64, c: Cell) -> bool
    ensures { result ≡ in_mask which kind b c }
{
    match which {
        Mask::A => in_a(kind, b, c),
        Mask::B => in_b(kind, b, c),
    }
}

// How many of so many nodes stand in a word, from a node on.
fn nodes_from(nodes: usize, from: Node) -> usize
    ensures { result ≡ min 64 (nodes - from.0) }
{
    nodes.saturating_sub(from.0).min(64)
}

// A word of a mask: the signers stored in a slot, from a node on, node by node.
fn signers_from(
    rec: &[u64],
    nodes: usize,
    from: Node,
    which: Mask,
    kind: CertificateKind,
    s: Slot,
    b: u64,
) -> u64
    requires { Signing rec.now nodes s.0 }
    ensures { result ≡ mask_of (λ j. in_mask which kind b (cell_at (ledger_of rec.now) s.0 (from.0 + j))) (min 64 (nodes - from.0)) }
{
    let upto = nodes_from(nodes, from);
    let mut word: u64 = 0;
    for j in 0..upto {
        let c = load_cell(rec, s, Node(from.0 + j));
        if in_mask(which, kind, b, c) {
            word |= 1 << j;
        }
    }
    word
}

// A mask of the signers stored in a slot, word by word into lent words.
fn signers_in(
    rec: &[u64],
    nodes: usize,
    which: Mask,
    kind: CertificateKind,
    s: Slot,
    b: u64,
    mask: &mut [u64],
)
    requires { (Signing rec.now nodes s.0) × Wide nodes mask.old }
    ensures { joined mask.new ≡ mask_of (λ n. in_mask which kind b (cell_at (ledger_of rec.now) s.0 n)) nodes }
{
    for (i, word) in mask.iter_mut().enumerate() {
        *word = signers_from(rec, nodes, Node(64 * i), which, kind, s, b);
    }
}

// The certificate that names all stored signers: its heading, and its masks in lent words.
pub fn certificate_for(
    rec: &[u64],
    kind: CertificateKind,
    s: Slot,
    block: u64,
    a: &mut [u64],
    b: &mut [u64],
) -> Heading
    requires { Naming rec.now s.0 a.old b.old }
    ensures { certificate_of result a.new b.new ≡ voted_for (ledger_of rec.now) kind s.0 block }
{
    let nodes = count(rec);
    signers_in(rec, nodes, Mask::A, kind, s, block, a);
    signers_in(rec, nodes, Mask::B, kind, s, block, b);
    Heading {
        kind: number_in(nodes, kind),
        slot: s,
        block,
    }
}

// The place of the masks that a certificate gets where the stored votes do not reach it: those of the kind asked for, else of a kept
// 2, else of a kept 1; where none is kept, past the last place.
pub fn kept_place(rec: &[u64], kind: CertificateKind, s: Slot, block: u64) -> usize
    requires { InSlot rec.now s.0 }
    ensures { kept_at (ledger_of rec.now) s.0 result ≡ kept_for kind block (certificates_at (ledger_of rec.now) s.0) }
{
    first_place(rec, s, Sought::Same(kind, block))
        .or_else(|| first_place(rec, s, Sought::Same(CertificateKind::Notar, block)))
        .or_else(|| first_place(rec, s, Sought::Same(CertificateKind::FastFinal, block)))
        .unwrap_or(MOST_CERTIFICATES)
}
