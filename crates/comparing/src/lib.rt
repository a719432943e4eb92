// The commands by which nodes are compared: a node set aside, its stored votes beside the present one's, own votes that do not stand, votes
// that the node lacks, blocks with two parents, certificates that it keeps, and a record saved.
#![tactic(auto)]

ghost use Rattle.std.specs.Prelude.{◌≡◌, ◌+◌, ◌*◌, ◌%◌, ◌≤◌, eqb, length};
ghost use Rattle.rulebook.specs.Tools.{choose};
ghost use Rattle.lines.specs.Page.{Wrote};
ghost use Rattle.comparing.specs.Compared.{line_text, lines_text, differ_line, words_bytes, SetAside};

use door::{Unwritten, fail, file_name, send_into, send_page};
use hex_bytes::read_hex;
use lines::Page;
use quointrowel::{
    qr_differ, qr_kept_certificates, qr_same_parents, qr_stands, qr_vouched, qr_vouched_packet,
};
use replies::{malformed, number};
use script::{Word, numbers, word_at};
use slices::copy_words;
use soundness::sound;
use std::fs::File;
use std::io::{Error, ErrorKind};
use telling::node_words;

// The words of 15,360 lines: more than two nodes of a ring of 64 can have.
const LIST_WORDS: usize = 76800;

// The words of 96 lines: six own votes in each of sixteen slots.
const FALLEN_WORDS: usize = 480;

// The words of 528 lines: seven votes in each of sixteen slots, and two for each of thirteen certificates.
const LACKED_WORDS: usize = 2640;

// The words of 13 lines: a slot has so many places for certificates.
const KEPT_WORDS: usize = 65;

// The words of two lines: a proof has two certificates, and each counts a firm by one mask.
const SHOWN_WORDS: usize = 10;

// The words of 512 lines: two for each pair of four places, in each of sixteen slots.
const TWICE_WORDS: usize = 2560;

// So many words of a record are written at a time: their bytes have room in a page.
const PIECE_WORDS: usize = 8192;

// ---- the node aside

// Sets a record aside; words that are none leave what was set aside before.
fn set_aside(rec: &[u64], kept: &mut [u64]) -> u64
    ensures { SetAside rec.now kept.old result kept.new }
{
    if !sound(rec) {
        return 17;
    }
    copy_words(rec, kept);
    0
}

// As many of the words as are the node's.
fn node_of(rec: &[u64]) -> &[u64] {
    let words = node_words(rec);
    &rec[..words]
}

// aside
pub fn aside(page: &mut [u8], rec: &[u64], kept: &mut [u64]) -> Result<(), Unwritten> {
    number(page, set_aside(node_of(rec), kept))
}

// ---- which votes differ

// Puts a line of a list.
fn put_line(page: &mut Page, line: &[u64; 5])
    ensures { Wrote page.old (line_text line.now 0) page.new }
{
    let [slot, node, kind, block, side] = *line;
    page.named(b" ", slot);
    page.named(b",", node);
    page.named(b",", kind);
    page.named(b",", block);
    page.named(b",", side);
}

// Puts the first lines of a list, as many of them as it has.
fn put_lines(page: &mut Page, list: &[u64], lines: usize)
    ensures { Wrote page.old (lines_text list.now lines) page.new }
{
    let (all, _) = list.as_chunks::<5>();
    let many = lines.min(all.len());
    for line in &all[..many] {
        put_line(page, line);
    }
}

// How many lines follow: none beside a refusal.
fn listed(n: u64, beside: usize) -> usize
    ensures { result ≡ choose (eqb n 0) beside 0 }
{
    if n == 0 { beside } else { 0 }
}

// The number, the value beside it, and the lines.
fn differ_line(page: &mut Page, n: u64, beside: usize, list: &[u64])
    ensures { Wrote page.old (differ_line n beside list.now) page.new }
{
    page.decimal(n);
    page.named(b" ", beside as u64);
    put_lines(page, list, listed(n, beside));
    page.byte(b'\n');
}

// Answers a question by its number, the value beside it, and the list that it fills.
fn tell_list<F: FnOnce(&mut [u64], &mut usize) -> u64>(
    page: &mut [u8],
    list: &mut [u64],
    ask: F,
) -> Result<(), Unwritten>
    requires { F.IsAlwaysCallable ask }
{
    let mut beside = 0;
    let n = ask(list, &mut beside);
    let mut line = Page::new(page);
    differ_line(&mut line, n, beside, list);
    send_page(&line)
}

// differ
pub fn differ(page: &mut [u8], kept: &[u64], rec: &[u64]) -> Result<(), Unwritten> {
    let first = node_of(kept);
    let second = node_of(rec);
    tell_list(
        page,
        &mut [0; LIST_WORDS],
        |list, beside| qr_differ(first, second, list, beside),
    )
}

// ---- which own votes do not stand

// stands
pub fn stands(page: &mut [u8], rec: &[u64]) -> Result<(), Unwritten> {
    let node = node_of(rec);
    tell_list(
        page,
        &mut [0; FALLEN_WORDS],
        |list, beside| qr_stands(node, list, beside),
    )
}

// ---- which certificates a slot keeps

// certificates SLOT
pub fn certificates(page: &mut [u8], line: &[u8], at: usize, rec: &[u64]) -> Result<(), Unwritten> {
    let [slot] = numbers::<1>(line, at);
    let node = node_of(rec);
    tell_list(page, &mut [0; KEPT_WORDS], |list, beside| {
        qr_kept_certificates(node, slot as usize, list, beside)
    })
}

// ---- which votes the node lacks

// vouched, vouched HEX: the node aside counts them in its name, or a packet does; a line has no room for more than 32,768 bytes of packet.
pub fn vouched(
    page: &mut [u8],
    line: &[u8],
    at: usize,
    kept: &[u64],
    rec: &[u64],
) -> Result<(), Unwritten> {
    let node = node_of(rec);
    let Word { from, to } = word_at(line, at);
    if to <= from {
        let first = node_of(kept);
        return tell_list(page, &mut [0; LACKED_WORDS], |list, beside| {
            qr_vouched(first, node, list, beside)
        });
    }
    let mut bytes = [0u8; 32768];
    let Some(size) = read_hex(&line[from..to], &mut bytes) else {
        return malformed(page);
    };
    let packet = &bytes[..size];
    tell_list(page, &mut [0; SHOWN_WORDS], |list, beside| {
        qr_vouched_packet(node, packet, list, beside)
    })
}

// ---- which blocks have two parents

// parents
pub fn parents(page: &mut [u8], kept: &[u64], rec: &[u64]) -> Result<(), Unwritten> {
    let first = node_of(kept);
    let second = node_of(rec);
    tell_list(
        page,
        &mut [0; TWICE_WORDS],
        |list, beside| qr_same_parents(first, second, list, beside),
    )
}

// ---- a record saved

// Puts the bytes of words, one after another: eight a word, lowest first.
fn put_words(page: &mut Page, words: &[u64])
    ensures { Wrote page.old (words_bytes words.now) page.new }
{
    for w in words {
        page.text(&w.to_le_bytes());
    }
}

// Writes a record into an open file.
fn write_record(page: &mut [u8], file: &mut File, rec: &[u64]) -> std::io::Result<()> {
    for words in rec.chunks(PIECE_WORDS) {
        let mut piece = Page::new(page);
        put_words(&mut piece, words);
        send_into(file, piece.buffer(), piece.used())?;
    }
    Ok(())
}

// Has the system write what it still holds, as closing a file tells no error; what lies on no disk has nothing to be written.
fn settle(file: &File) -> std::io::Result<()> {
    match file.sync_all() {
        Err(e) if e.kind() != ErrorKind::InvalidInput => Err(e),
        _ => Ok(()),
    }
}

// Writes a record into the file of that name, which is made, or emptied first.
fn write_file(rt: &HostRuntime, page: &mut [u8], rec: &[u64], path: &[u8]) -> std::io::Result<()> {
    let mut file = File::create(rt, file_name(path)?)?;
    write_record(page, &mut file, rec)?;
    settle(&file)
}

// Says on standard error that a file was not written, and why.
fn blame(page: &mut [u8], path: &[u8], error: Error) {
    let mut what = Page::new(page);
    what.text(b"panel: not saved: ");
    what.text(path);
    fail(what.written(), error);
}

// Writes a record into the file of that name; no file is made for words that are none.
fn save_as(rt: &HostRuntime, page: &mut [u8], rec: &[u64], path: &[u8]) -> Result<(), Unwritten> {
    if !sound(rec) {
        return number(page, 17);
    }
    match write_file(rt, page, rec, path) {
        Ok(()) => number(page, 0),
        Err(e) => {
            blame(page, path, e);
            malformed(page)
        }
    }
}

// save FILE
pub fn save(
    rt: &HostRuntime,
    page: &mut [u8],
    line: &[u8],
    at: usize,
    rec: &[u64],
) -> Result<(), Unwritten> {
    let Word { from, to } = word_at(line, at);
    save_as(rt, page, node_of(rec), &line[from..to])
}
