// Lines of votes that a firm's own cell lacks: those that another record stores in its name, and those that a certificate counts it for.
#![tactic(auto)]

ghost use Rattle.std.specs.Prelude.{◌≡◌, not, ◌+◌, ◌≤◌};
ghost use Rattle.rulebook.specs.Packets.{bit, joined};
ghost use Rattle.rulebook.specs.Checker.{without_b};
ghost use Rattle.safety.specs.Ballots.{has, kind_of, block_of};
ghost use Rattle.safety.specs.Ring.{ballot_a, ballot_b};
ghost use Rattle.inquest.specs.Lists.{cell_lacks};
ghost use Rattle.inquest_lines.specs.Lent.{Laid, most_lines};
ghost use Rattle.signer_lines.specs.Signers.{ballot_of, stored_lacks, counted_lacks, lacks};

use inquest::Line;
use inquest_lines::put_unless;
use rulebook::{Cell, CertificateKind, Node, Slot, VoteKind};

// What a certificate says of a firm: the certificate's kind, slot and block, the firm, and which masks name it.
#[derive(Clone, Copy, Debug, PartialEq, Eq)]
pub struct Signer {
    pub kind: CertificateKind,
    pub slot: Slot,
    pub node: Node,
    pub block: u64,
    pub a: bool,
    pub b: bool,
}

// Whether a mask names a node; past its last word it names none.
pub fn names(mask: &[u64], n: Node) -> bool
    ensures { result ≡ bit (joined mask.now) n.0 }
{
    let w = mask.get(n.0 / 64).copied().unwrap_or(0);
    (w >> (n.0 % 64)) & 1 == 1
}

// Whether a cell keeps the vote of a kind for b, where 0 is no block.
#[tactic(auto, unfolding(rulebook::specs::Pool::has_fallback))]
fn has(d: Cell, kind: VoteKind, b: u64) -> bool
    ensures { result ≡ has d (ballot_of kind b) }
{
    match kind {
        VoteKind::Notar => (b != 0) & (d.notar == b),
        VoteKind::NotarFallback => {
            (b != 0) & ((d.fallback1 == b) | ((d.fallback2 == b) | (d.fallback3 == b)))
        }
        VoteKind::Skip => d.skip != 0,
        VoteKind::SkipFallback => d.skipfallback != 0,
        VoteKind::Final | VoteKind::Other => d.finalvote != 0,
    }
}

// The block of such a vote: none where the kind's votes have none.
fn block_of(kind: VoteKind, b: u64) -> u64
    ensures { result ≡ block_of (ballot_of kind b) }
{
    match kind {
        VoteKind::Notar | VoteKind::NotarFallback => b,
        VoteKind::Skip | VoteKind::SkipFallback | VoteKind::Final | VoteKind::Other => 0,
    }
}

// Whether certificates of a kind have two masks.
#[tactic(auto, unfolding(rulebook::specs::Checker::without_b))]
fn with_b(kind: CertificateKind) -> bool
    ensures { result ≡ not (without_b kind) }
{
    matches!(kind, CertificateKind::NotarFallback | CertificateKind::Skip)
}

// The kind of the vote that mask A counts, and of the one that mask B counts.
fn vote_a(kind: CertificateKind) -> VoteKind
    ensures { result ≡ kind_of (ballot_a kind 0) }
{
    match kind {
        CertificateKind::FastFinal | CertificateKind::Notar | CertificateKind::NotarFallback => {
            VoteKind::Notar
        }
        CertificateKind::Skip => VoteKind::Skip,
        CertificateKind::Final | CertificateKind::Other => VoteKind::Final,
    }
}

fn vote_b(kind: CertificateKind) -> VoteKind
    ensures { result ≡ kind_of (ballot_b kind 0) }
{
    match kind {
        CertificateKind::FastFinal | CertificateKind::Notar => VoteKind::Notar,
        CertificateKind::NotarFallback => VoteKind::NotarFallback,
        CertificateKind::Skip => VoteKind::SkipFallback,
        CertificateKind::Final | CertificateKind::Other => VoteKind::Final,
    }
}

// Puts the line of a vote that a certificate counts a firm for, where a mask names the firm and the cell lacks the vote.
fn put_counted(
    list: &mut [u64],
    at: usize,
    x: Signer,
    d: Cell,
    named: bool,
    kind: VoteKind,
) -> usize
    requires { at + 1 ≤ most_lines }
    ensures { Laid list.old at (counted_lacks x d named kind) list.new result }
{
    let line = Line {
        slot: x.slot,
        node: x.node,
        kind,
        block: block_of(kind, x.block),
        source: u64::from(x.kind),
    };
    put_unless(list, at, !named | has(d, kind, x.block), line)
}

// Puts the lines of what a certificate counts a firm for and the firm's cell lacks: by mask A, then by mask B, which some kinds have not.
pub fn put_signer(list: &mut [u64], at: usize, x: Signer, d: Cell) -> usize
    requires { at + 2 ≤ most_lines }
    ensures { Laid list.old at (lacks x d) list.new result }
{
    let next = put_counted(list, at, x, d, x.a, vote_a(x.kind));
    put_counted(list, next, x, d, with_b(x.kind) & x.b, vote_b(x.kind))
}

// Puts the line of firm m's stored vote of a kind, by its word, 0 is none, where the firm's cell lacks it.
fn put_stored(
    list: &mut [u64],
    at: usize,
    s: Slot,
    m: Node,
    kind: VoteKind,
    word: u64,
    d: Cell,
) -> usize
    requires { at + 1 ≤ most_lines }
    ensures { Laid list.old at (stored_lacks s.0 m.0 kind word d) list.new result }
{
    let line = Line {
        slot: s,
        node: m,
        kind,
        block: block_of(kind, word),
        source: 0,
    };
    put_unless(list, at, (word == 0) | has(d, kind, word), line)
}

// Puts the lines of firm m's votes of the one cell that the other lacks, kinds ascending.
pub fn put_cell(list: &mut [u64], at: usize, s: Slot, m: Node, c: Cell, d: Cell) -> usize
    requires { at + 7 ≤ most_lines }
    ensures { Laid list.old at (cell_lacks s.0 m.0 c d) list.new result }
{
    let e = put_stored(list, at, s, m, VoteKind::Notar, c.notar, d);
    let f = put_stored(list, e, s, m, VoteKind::NotarFallback, c.fallback1, d);
    let g = put_stored(list, f, s, m, VoteKind::NotarFallback, c.fallback2, d);
    let h = put_stored(list, g, s, m, VoteKind::NotarFallback, c.fallback3, d);
    let i = put_stored(list, h, s, m, VoteKind::Skip, c.skip, d);
    let j = put_stored(list, i, s, m, VoteKind::SkipFallback, c.skipfallback, d);
    put_stored(list, j, s, m, VoteKind::Final, c.finalvote, d)
}
