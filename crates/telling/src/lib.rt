// The commands that tell the node something: which of a line's numbers go to which function of the face, and how it is answered.
#![tactic(auto)]

ghost use Rattle.std.specs.Prelude.{◌≤◌, length};

use door::Unwritten;
use hex_bytes::read_hex;
use quointrowel::{
    qr_block, qr_look, qr_record_words, qr_start, qr_take, qr_timeout, qr_tray, qr_vote, qr_watch,
};
use replies::{malformed, number, records, served};
use rulebook::Node;
use script::{Word, numbers, read_numbers, word_at};

// How many of the words are the node's, by its count.
pub fn node_words(rec: &[u64]) -> usize
    ensures { result ≤ length rec.now }
{
    let Some(count) = rec.first() else {
        return 0;
    };
    let words = qr_record_words(*count as usize);
    if rec.len() < words {
        return 0;
    }
    words
}

// Starts a node on as many of the words as its stakes ask for.
fn start_node(rec: &mut [u64], stakes: &[u64], own: Node, genesis: u64) -> u64 {
    let words = qr_record_words(stakes.len()).min(rec.len());
    qr_start(&mut rec[..words], stakes, own.0, genesis)
}

// start OWN GENESIS STAKE..; 2,049 stakes are kept, which are too many already.
pub fn start(page: &mut [u8], line: &[u8], at: usize, rec: &mut [u64]) -> Result<(), Unwritten> {
    let mut args = [0u64; 2051];
    let Ok(many) = read_numbers(line, at, &mut args) else {
        return malformed(page);
    };
    let kept = many.min(args.len());
    let [own, genesis, stakes @ ..] = &args[..kept] else {
        return number(page, 1);
    };
    number(page, start_node(rec, stakes, Node(*own as usize), *genesis))
}

// Starts a watcher on as many of the words as its stakes ask for.
fn watch_node(rec: &mut [u64], stakes: &[u64], genesis: u64) -> u64 {
    let words = qr_record_words(stakes.len()).min(rec.len());
    qr_watch(&mut rec[..words], stakes, genesis)
}

// watch GENESIS STAKE..; 2,049 stakes are kept, which are too many already.
pub fn watch(page: &mut [u8], line: &[u8], at: usize, rec: &mut [u64]) -> Result<(), Unwritten> {
    let mut args = [0u64; 2050];
    let Ok(many) = read_numbers(line, at, &mut args) else {
        return malformed(page);
    };
    let kept = many.min(args.len());
    let [genesis, stakes @ ..] = &args[..kept] else {
        return number(page, 1);
    };
    number(page, watch_node(rec, stakes, *genesis))
}

// vote KIND NODE SLOT BLOCK
pub fn vote(
    page: &mut [u8],
    line: &[u8],
    at: usize,
    rec: &mut [u64],
    outbox: &mut [u64],
) -> Result<(), Unwritten> {
    let [kind, node, slot, block] = numbers::<4>(line, at);
    let mut made = 0;
    let words = node_words(rec);
    let n = qr_vote(
        &mut rec[..words],
        outbox,
        &mut made,
        kind,
        node as usize,
        slot as usize,
        block,
    );
    records(page, n, made, outbox)
}

// block SLOT NUMBER PARENTSLOT PARENT
pub fn block(
    page: &mut [u8],
    line: &[u8],
    at: usize,
    rec: &mut [u64],
    outbox: &mut [u64],
) -> Result<(), Unwritten> {
    let [slot, block, parentslot, parent] = numbers::<4>(line, at);
    let mut made = 0;
    let words = node_words(rec);
    let n = qr_block(
        &mut rec[..words],
        outbox,
        &mut made,
        slot as usize,
        block,
        parentslot as usize,
        parent,
    );
    records(page, n, made, outbox)
}

// timeout SLOT
pub fn timeout(
    page: &mut [u8],
    line: &[u8],
    at: usize,
    rec: &mut [u64],
    outbox: &mut [u64],
) -> Result<(), Unwritten> {
    let [slot] = numbers::<1>(line, at);
    let mut made = 0;
    let words = node_words(rec);
    let n = qr_timeout(&mut rec[..words], outbox, &mut made, slot as usize);
    records(page, n, made, outbox)
}

// look
pub fn look(page: &mut [u8], rec: &mut [u64], outbox: &mut [u64]) -> Result<(), Unwritten> {
    let mut made = 0;
    let words = node_words(rec);
    let n = qr_look(&mut rec[..words], outbox, &mut made);
    records(page, n, made, outbox)
}

// tray WORD..; a line has no room for more than 32,766 words.
pub fn tray(
    page: &mut [u8],
    line: &[u8],
    at: usize,
    rec: &mut [u64],
    outbox: &mut [u64],
) -> Result<(), Unwritten> {
    let mut words = [0u64; 32768];
    let Ok(many) = read_numbers(line, at, &mut words) else {
        return malformed(page);
    };
    let kept = many.min(words.len());
    tray_votes(page, &words[..kept], rec, outbox)
}

// A run of votes, four words each, with a place for the answer of each.
fn tray_votes(
    page: &mut [u8],
    votes: &[u64],
    rec: &mut [u64],
    outbox: &mut [u64],
) -> Result<(), Unwritten> {
    let mut answers = [0u64; 8192];
    let mut made = 0;
    let words = node_words(rec);
    let n = qr_tray(&mut rec[..words], outbox, &mut made, votes, &mut answers);
    let many = (votes.len() / 4).min(answers.len());
    served(page, n, made, outbox, &answers[..many])
}

// take HEX; a line has no room for more than 32,768 bytes of packet.
pub fn take(
    page: &mut [u8],
    line: &[u8],
    at: usize,
    rec: &mut [u64],
    outbox: &mut [u64],
) -> Result<(), Unwritten> {
    let Word { from, to } = word_at(line, at);
    let mut bytes = [0u8; 32768];
    let Some(size) = read_hex(&line[from..to], &mut bytes) else {
        return malformed(page);
    };
    take_packet(page, &bytes[..size], rec, outbox)
}

// The same, with the packet read.
fn take_packet(
    page: &mut [u8],
    packet: &[u8],
    rec: &mut [u64],
    outbox: &mut [u64],
) -> Result<(), Unwritten> {
    let mut made = 0;
    let words = node_words(rec);
    let n = qr_take(&mut rec[..words], outbox, &mut made, packet);
    records(page, n, made, outbox)
}
