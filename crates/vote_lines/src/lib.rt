// The list of stored votes, as people read it. Every function takes any words. Lines are built on a page and leave by the door one by one.
// A line that was not written is an error, and ends the list.
#![tactic(auto)]

use door::{Unwritten, end_line};
use kinds::slot_ok;
use lines::Page;
use replies::number;
use rulebook::{Cell, Node, Slot, VoteKind, Weight};
use shown::{cell_of, is_large, nodes_of, total_of};
use shown_blocks::fallback_after;
use shown_votes::{stored_in, voter_from};
use shown_weights::percent;
use soundness::sound;

// A page of a slot's votes.
const VOTERS_ON_A_PAGE: usize = 64;

// A node's notar-fallback votes in a slot are so many at most.
const MOST_FALLBACKS: usize = 3;

const LAST_SLOT: usize = 16;

// One stored vote, where there is one.
fn vote_line(
    page: &mut Page,
    there: bool,
    s: Slot,
    n: Node,
    kind: VoteKind,
    block: u64,
) -> Result<(), Unwritten> {
    if !there {
        return Ok(());
    }
    page.vote(s, n, u64::from(kind), block);
    end_line(page)
}

// The notar-fallback votes of a cell, lowest block first: three at most.
fn fallback_lines(page: &mut Page, c: Cell, s: Slot, n: Node) -> Result<(), Unwritten> {
    let mut block = fallback_after(c, 0);
    for _ in 0..MOST_FALLBACKS {
        if block == 0 {
            return Ok(());
        }
        vote_line(page, true, s, n, VoteKind::NotarFallback, block)?;
        block = fallback_after(c, block);
    }
    Ok(())
}

// The votes of a node in a slot, by kind.
fn cell_lines(page: &mut Page, c: Cell, s: Slot, n: Node) -> Result<(), Unwritten> {
    vote_line(page, c.notar != 0, s, n, VoteKind::Notar, c.notar)?;
    fallback_lines(page, c, s, n)?;
    vote_line(page, c.skip != 0, s, n, VoteKind::Skip, 0)?;
    vote_line(page, c.skipfallback != 0, s, n, VoteKind::SkipFallback, 0)?;
    vote_line(page, c.finalvote != 0, s, n, VoteKind::Final, 0)
}

// Where further nodes' votes are told, where a page did not hold them all.
fn more_votes(page: &mut Page, rec: &[u64], s: Slot, next: Node) -> Result<(), Unwritten> {
    if next.0 >= nodes_of(rec) {
        return Ok(());
    }
    page.named(b"more: votes ", s.0 as u64);
    page.named(b" ", next.0 as u64);
    end_line(page)
}

// The votes of a slot, by node: a page of the nodes from one on that have some.
fn voter_lines(page: &mut Page, rec: &[u64], s: Slot, from: Node) -> Result<(), Unwritten> {
    let nodes = nodes_of(rec);
    let mut n = voter_from(rec, s, from);
    for _ in 0..VOTERS_ON_A_PAGE {
        if n.0 >= nodes {
            return Ok(());
        }
        cell_lines(page, cell_of(rec, s, n), s, n)?;
        n = voter_from(rec, s, Node(n.0 + 1));
    }
    more_votes(page, rec, s, n)
}

// How many votes of a slot are stored, by how many nodes, what these weigh, and how to get the votes, where there are any.
fn stored_line(page: &mut Page, rec: &[u64], s: Slot) -> Result<(), Unwritten> {
    let stored = stored_in(rec, s);
    if stored.nodes == 0 {
        return Ok(());
    }
    page.named(b"slot ", s.0 as u64);
    page.named(b" votes ", stored.votes);
    page.named(b" nodes ", stored.nodes);
    stored_weight(page, rec, stored.weight);
    page.named(b": votes ", s.0 as u64);
    page.text(b" 0");
    end_line(page)
}

// The weight of the nodes whose votes are stored.
fn stored_weight(page: &mut Page, rec: &[u64], w: Weight) {
    page.text(b" weight");
    page.share(w, percent(w, total_of(rec)));
}

// The votes of a slot, or in a large ring what they are in sum.
fn slot_lines(page: &mut Page, rec: &[u64], s: Slot) -> Result<(), Unwritten> {
    if is_large(rec) {
        return stored_line(page, rec, s);
    }
    voter_lines(page, rec, s, Node(0))
}

// Every stored vote, in the order of slot, node, kind and block, in a large ring a line a slot; 17 where the words are no record.
pub fn votes(page: &mut [u8], rec: &[u64]) -> Result<(), Unwritten> {
    if !sound(rec) {
        return number(page, 17);
    }
    let mut lines = Page::new(page);
    for s in 1..=LAST_SLOT {
        slot_lines(&mut lines, rec, Slot(s))?;
    }
    Ok(())
}

// A page of a slot's votes, from a node on; 17 where the words are no record, 3 where there is no such slot, 2 where there is no
// such node.
pub fn slot_votes(page: &mut [u8], rec: &[u64], s: Slot, from: Node) -> Result<(), Unwritten> {
    if !sound(rec) {
        return number(page, 17);
    }
    if !slot_ok(s) {
        return number(page, 3);
    }
    if from.0 >= nodes_of(rec) {
        return number(page, 2);
    }
    let mut lines = Page::new(page);
    voter_lines(&mut lines, rec, s, from)
}
