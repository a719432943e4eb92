// A node's record shown to people, slot by slot. Every function takes any words; what they show is read by `shown` and the crates over
// it. Lines are built on a page and leave by the door one by one. A line that was not written is an error, and ends the board.
#![tactic(auto)]

use door::{Unwritten, end_line};
use kinds::slot_ok;
use lines::Page;
use pool::signers_of;
use replies::number;
use rulebook::{CertificateKind, Slot, Who};
use shown::{
    armed_in, cell_of, clash_in, final_child, final_of, genesis_of, has_certificates, is_blank,
    is_large, kept_of, nodes_of, own_of, timed_out_in, total_of, touched, watches,
};
use shown_blocks::{block_after, block_from};
use shown_heavy::{heavy_after, light_blocks};
use shown_kept::kept_certificate;
use shown_weights::{certified, held_in, missing_in, next_for, percent, short_of, weight_of};
use soundness::sound;

// A page of a slot's blocks.
const BLOCKS_ON_A_PAGE: usize = 20;

// In a ring that is not large every block is told: four a node at most.
const MOST_BLOCKS: usize = 256;

// So many announced blocks are kept of a slot.
const KEPT_BLOCKS: usize = 4;

// So many certificates from other firms are.
const KEPT_CERTIFICATES: usize = 13;

const LAST_SLOT: usize = 16;

// A weight, and its percent of the total rounded down.
fn put_weight(page: &mut Page, rec: &[u64], s: Slot, who: Who) {
    let w = weight_of(rec, s, who);
    page.share(w, percent(w, total_of(rec)));
}

// A text, where it applies.
fn put_if(page: &mut Page, there: bool, text: &[u8]) {
    if there {
        page.text(text);
    }
}

// The block in one of a slot's places for kept blocks, with its parent, where there is one.
fn kept_line(page: &mut Page, rec: &[u64], s: Slot, place: usize) -> Result<(), Unwritten> {
    let b = kept_of(rec, s, place);
    let slot = b.parentslot;
    if b.number == 0 {
        return Ok(());
    }
    page.named(b"  kept ", b.number);
    page.named(b", parent ", b.parent);
    page.named(b" in slot ", slot.0 as u64);
    end_line(page)
}

// The kept blocks, as they were announced: first the one that the node may notarize.
fn kept_lines(page: &mut Page, rec: &[u64], s: Slot) -> Result<(), Unwritten> {
    for place in 0..KEPT_BLOCKS {
        kept_line(page, rec, s, place)?;
    }
    Ok(())
}

// The own votes.
fn own_line(page: &mut Page, rec: &[u64], s: Slot) -> Result<(), Unwritten> {
    let c = cell_of(rec, s, own_of(rec));
    if is_blank(c) {
        return Ok(());
    }
    page.text(b"  own");
    own_notar(page, c.notar);
    put_if(page, c.skip != 0, b" skip");
    put_if(page, c.skipfallback != 0, b" skip-fallback");
    put_if(page, c.finalvote != 0, b" final");
    end_line(page)?;
    own_fallback(page, c.fallback1)?;
    own_fallback(page, c.fallback2)?;
    own_fallback(page, c.fallback3)
}

// The own notar vote, where there is one.
fn own_notar(page: &mut Page, b: u64) {
    if b != 0 {
        page.named(b" notar ", b);
    }
}

// An own notar-fallback vote, where there is one.
fn own_fallback(page: &mut Page, b: u64) -> Result<(), Unwritten> {
    if b == 0 {
        return Ok(());
    }
    page.named(b"  own notar-fallback ", b);
    end_line(page)
}

// The weight of skip votes, and what is missing to the certificate, in which skip-fallback votes count too.
fn skip_line(page: &mut Page, rec: &[u64], s: Slot) -> Result<(), Unwritten> {
    let w = weight_of(rec, s, Who::SkipOrFallback);
    if w.0 == 0 {
        return Ok(());
    }
    page.text(b"  skip");
    put_weight(page, rec, s, Who::Skip);
    let missing = short_of(rec, s, CertificateKind::Skip, 0);
    page.missing(missing, b"skip certificate");
    end_line(page)
}

// The weight of final votes, and what is missing to the certificate.
fn final_line(page: &mut Page, rec: &[u64], s: Slot) -> Result<(), Unwritten> {
    let w = weight_of(rec, s, Who::Final);
    if w.0 == 0 {
        return Ok(());
    }
    page.text(b"  final");
    put_weight(page, rec, s, Who::Final);
    let missing = short_of(rec, s, CertificateKind::Final, 0);
    page.missing(missing, b"final certificate");
    end_line(page)
}

// A certificate, where it is held: its name, and the weight of those whose votes count in it; where that does not reach it, it is kept.
fn put_held(page: &mut Page, rec: &[u64], s: Slot, kind: CertificateKind, block: u64, name: &[u8]) {
    if !held_in(rec, s, kind, block) {
        return;
    }
    page.text(name);
    let missing = missing_in(rec, s, kind, block);
    if missing.0 != 0 {
        return page.text(b" kept");
    }
    put_weight(page, rec, s, signers_of(kind, block));
}

// The certificates held for a block: kinds 1, 2 and 3.
fn put_certificates(page: &mut Page, rec: &[u64], s: Slot, block: u64) {
    let fast = CertificateKind::FastFinal;
    let fallback = CertificateKind::NotarFallback;
    put_held(page, rec, s, fast, block, b" fast-final");
    put_held(page, rec, s, CertificateKind::Notar, block, b" notar");
    put_held(page, rec, s, fallback, block, b" notar-fallback");
}

// What is missing to the next certificate that a block could reach.
fn put_next(page: &mut Page, rec: &[u64], s: Slot, b: u64) {
    let kind = next_for(rec, s, b);
    let missing = short_of(rec, s, kind, b);
    match kind {
        CertificateKind::NotarFallback => page.missing(missing, b"notar-fallback"),
        CertificateKind::Notar => page.missing(missing, b"notar"),
        _ => page.missing(missing, b"fast-final"),
    }
}

// A block's notar weight, and what is missing to its next certificate.
fn notar_line(page: &mut Page, rec: &[u64], s: Slot, b: u64) -> Result<(), Unwritten> {
    page.named(b"  block ", b);
    page.text(b" notar");
    put_weight(page, rec, s, Who::Notar(b));
    put_next(page, rec, s, b);
    end_line(page)
}

// The certificates held for a block, where there is one.
fn held_line(page: &mut Page, rec: &[u64], s: Slot, b: u64) -> Result<(), Unwritten> {
    if !held_in(rec, s, CertificateKind::NotarFallback, b) {
        return Ok(());
    }
    page.named(b"  block ", b);
    page.text(b" holds");
    put_certificates(page, rec, s, b);
    end_line(page)
}

// A block that votes name.
fn block_line(page: &mut Page, rec: &[u64], s: Slot, b: u64) -> Result<(), Unwritten> {
    notar_line(page, rec, s, b)?;
    held_line(page, rec, s, b)
}

// Where further blocks are told, where a page did not hold them all.
fn more_blocks(page: &mut Page, s: Slot, next: u64) -> Result<(), Unwritten> {
    if next == 0 {
        return Ok(());
    }
    page.named(b"  more: board ", s.0 as u64);
    page.named(b" ", next);
    end_line(page)
}

// The blocks that votes name from a number on, lowest first, so many of them.
fn block_lines(
    page: &mut Page,
    rec: &[u64],
    s: Slot,
    from: u64,
    most: usize,
) -> Result<(), Unwritten> {
    let mut b = block_from(rec, s, from);
    for _ in 0..most {
        if b == 0 {
            return Ok(());
        }
        block_line(page, rec, s, b)?;
        b = block_after(rec, s, b);
    }
    more_blocks(page, s, b)
}

// The blocks that a fifth of the stake stands behind, lowest first: a node names four at most, so there are twenty at most.
fn heavy_lines(page: &mut Page, rec: &[u64], s: Slot) -> Result<(), Unwritten> {
    let mut b = heavy_after(rec, s, 0);
    for _ in 0..BLOCKS_ON_A_PAGE {
        if b == 0 {
            return Ok(());
        }
        block_line(page, rec, s, b)?;
        b = heavy_after(rec, s, b);
    }
    Ok(())
}

// How many blocks are lighter, and how to get them, where there are any.
fn light_line(page: &mut Page, rec: &[u64], s: Slot) -> Result<(), Unwritten> {
    let lighter = light_blocks(rec, s);
    if lighter == 0 {
        return Ok(());
    }
    page.named(b"  lighter blocks ", lighter);
    page.named(b": board ", s.0 as u64);
    page.text(b" 1");
    end_line(page)
}

// The blocks that votes name, in a large ring the heavy ones alone.
fn blocks_board(page: &mut Page, rec: &[u64], s: Slot) -> Result<(), Unwritten> {
    if is_large(rec) {
        heavy_lines(page, rec, s)?;
        return light_line(page, rec, s);
    }
    block_lines(page, rec, s, 1, MOST_BLOCKS)
}

// A certificate for no block, where it is held, on a line of its own.
fn certificate_line(
    page: &mut Page,
    rec: &[u64],
    s: Slot,
    kind: CertificateKind,
    name: &[u8],
) -> Result<(), Unwritten> {
    if !held_in(rec, s, kind, 0) {
        return Ok(());
    }
    put_held(page, rec, s, kind, 0, name);
    end_line(page)
}

// The certificates held for no block.
fn certificate_lines(page: &mut Page, rec: &[u64], s: Slot) -> Result<(), Unwritten> {
    let skip = CertificateKind::Skip;
    let ended = CertificateKind::Final;
    certificate_line(page, rec, s, skip, b"  skip certificate")?;
    certificate_line(page, rec, s, ended, b"  final certificate")
}

// The kind of a certificate from another firm, as its line begins.
fn put_kind(page: &mut Page, kind: CertificateKind) {
    page.text(b"  kept certificate");
    match kind {
        CertificateKind::FastFinal => page.text(b" fast-final"),
        CertificateKind::Notar => page.text(b" notar"),
        CertificateKind::NotarFallback => page.text(b" notar-fallback"),
        CertificateKind::Skip => page.text(b" skip"),
        _ => page.text(b" final"),
    }
}

// A certificate's block, where there is one.
fn put_block(page: &mut Page, block: u64) {
    if block != 0 {
        page.named(b" ", block);
    }
}

// The certificate in one of a slot's places, with how many signed it and their weight, where there is one.
fn kept_certificate_line(
    page: &mut Page,
    rec: &[u64],
    s: Slot,
    place: usize,
) -> Result<(), Unwritten> {
    let Some(c) = kept_certificate(rec, s, place) else {
        return Ok(());
    };
    let weight = c.weight;
    put_kind(page, c.kind);
    put_block(page, c.block);
    page.named(b", signers ", c.signers);
    page.text(b", weight");
    page.share(weight, percent(weight, total_of(rec)));
    end_line(page)
}

// The certificates from other firms, kind 3 last.
fn kept_certificate_lines(page: &mut Page, rec: &[u64], s: Slot) -> Result<(), Unwritten> {
    if !has_certificates(rec, s) {
        return Ok(());
    }
    for place in 0..KEPT_CERTIFICATES {
        kept_certificate_line(page, rec, s, place)?;
    }
    Ok(())
}

// How a block came to be final: by certificates, or as the parent of another.
fn put_cause(page: &mut Page, rec: &[u64], s: Slot, b: u64) {
    if certified(rec, s, b) {
        return page.text(b" by certificate");
    }
    let t = final_child(rec, s, b);
    if t.0 == 0 {
        return;
    }
    page.named(b" through slot ", t.0 as u64);
}

// The block reported final.
fn reported_line(page: &mut Page, rec: &[u64], s: Slot) -> Result<(), Unwritten> {
    let f = final_of(rec, s);
    if f == 0 {
        return Ok(());
    }
    page.named(b"  FINAL ", f);
    put_cause(page, rec, s, f);
    end_line(page)
}

// Whether another final block was reported.
fn clash_line(page: &mut Page, rec: &[u64], s: Slot) -> Result<(), Unwritten> {
    if !clash_in(rec, s) {
        return Ok(());
    }
    page.text(b"  CONFLICT: another block of this slot is final too");
    end_line(page)
}

// A slot's own line.
fn slot_line(page: &mut Page, rec: &[u64], s: Slot) -> Result<(), Unwritten> {
    page.named(b"slot ", s.0 as u64);
    put_if(page, timed_out_in(rec, s), b", timed out");
    end_line(page)
}

// What is kept of a slot.
fn slot_board(page: &mut Page, rec: &[u64], s: Slot) -> Result<(), Unwritten> {
    slot_line(page, rec, s)?;
    kept_lines(page, rec, s)?;
    own_line(page, rec, s)?;
    votes_board(page, rec, s)?;
    kept_certificate_lines(page, rec, s)?;
    reported_line(page, rec, s)?;
    clash_line(page, rec, s)
}

// What the votes of a slot weigh.
fn votes_board(page: &mut Page, rec: &[u64], s: Slot) -> Result<(), Unwritten> {
    skip_line(page, rec, s)?;
    blocks_board(page, rec, s)?;
    final_line(page, rec, s)?;
    certificate_lines(page, rec, s)
}

// One slot, where something has touched it.
fn touched_board(page: &mut Page, rec: &[u64], s: Slot) -> Result<(), Unwritten> {
    if touched(rec, s) {
        return slot_board(page, rec, s);
    }
    Ok(())
}

// The own number, or that there is none.
fn put_own(page: &mut Page, rec: &[u64]) {
    if watches(rec) {
        return page.text(b"watcher");
    }
    let me = own_of(rec);
    page.named(b"node ", me.0 as u64);
}

// The node's own line.
fn head_line(page: &mut Page, rec: &[u64]) -> Result<(), Unwritten> {
    let all = total_of(rec);
    put_own(page, rec);
    page.named(b" of ", nodes_of(rec) as u64);
    page.named(b", total stake ", all.0);
    page.named(b", genesis ", genesis_of(rec));
    end_line(page)
}

// The first and the last slot of an armed window.
fn put_window(page: &mut Page, rec: &[u64], from: Slot, slots: &[u8]) {
    put_if(page, armed_in(rec, from), slots);
}

// The armed windows, by their slots, where there are any.
fn armed_line(page: &mut Page, rec: &[u64]) -> Result<(), Unwritten> {
    let first = armed_in(rec, Slot(1)) | armed_in(rec, Slot(5));
    let second = armed_in(rec, Slot(9)) | armed_in(rec, Slot(13));
    if !(first | second) {
        return Ok(());
    }
    page.text(b"armed slots");
    put_windows(page, rec);
    end_line(page)
}

// The slots of the armed windows.
fn put_windows(page: &mut Page, rec: &[u64]) {
    put_window(page, rec, Slot(1), b" 1-4");
    put_window(page, rec, Slot(5), b" 5-8");
    put_window(page, rec, Slot(9), b" 9-12");
    put_window(page, rec, Slot(13), b" 13-16");
}

// The node slot by slot, nothing for slots that nothing has touched; 17 where the words are no record.
pub fn board(page: &mut [u8], rec: &[u64]) -> Result<(), Unwritten> {
    if !sound(rec) {
        return number(page, 17);
    }
    let mut lines = Page::new(page);
    head_line(&mut lines, rec)?;
    armed_line(&mut lines, rec)?;
    for s in 1..=LAST_SLOT {
        touched_board(&mut lines, rec, Slot(s))?;
    }
    Ok(())
}

// One slot of the board, touched or not; 17 where the words are no record, 3 where there is no such slot.
pub fn slot(page: &mut [u8], rec: &[u64], s: Slot) -> Result<(), Unwritten> {
    if !sound(rec) {
        return number(page, 17);
    }
    if !slot_ok(s) {
        return number(page, 3);
    }
    let mut lines = Page::new(page);
    slot_board(&mut lines, rec, s)
}

// A page of a slot's blocks, from a number on; 17 and 3 likewise.
pub fn slot_blocks(page: &mut [u8], rec: &[u64], s: Slot, from: u64) -> Result<(), Unwritten> {
    if !sound(rec) {
        return number(page, 17);
    }
    if !slot_ok(s) {
        return number(page, 3);
    }
    let mut lines = Page::new(page);
    block_lines(&mut lines, rec, s, from, BLOCKS_ON_A_PAGE)
}
