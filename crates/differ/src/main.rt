// For people: which stored votes of two saved records differ, in columns, and how many they are.
#![tactic(auto)]

ghost use Rattle.std.specs.Prelude.{◌≤◌, length};

use answers::{differ_number, differ_value};
use differences::differ;
use door::{Unwritten, end_line, file_name, send_to, tell_line};
use lines::Page;
use rulebook::VoteKind;
use std::env::{Env, FillError};
use std::fs::File;
use std::os::fd::AsRawFd;

// No record has more words: a file that holds more is none.
const RECORD_ROOM: usize = 270336;

// The words of 40,000 lines: so many are listed at most.
const LIST_WORDS: usize = 200000;

const LINE_WORDS: usize = 5;

const PAGE_ROOM: usize = 8192;

// A file is read in pieces of 8,192 words, 34 of them at most.
const PIECES: usize = 34;

const UNREAD: &[u8] = b": this cannot be read, or its size is no record's";

const ERR: i32 = 2;

// Where the columns begin.
const NODE_COLUMN: usize = 6;

const KIND_COLUMN: usize = 12;

const BLOCK_COLUMN: usize = 28;

const SIDE_COLUMN: usize = 50;

// As much of a file's name as the last column shows.
const NAME_ROOM: usize = 28;

// Keeps a word where there is room, and answers how many are kept.
fn keep(words: &mut [u64], used: usize, w: u64) -> usize {
    if used < words.len() {
        words[used] = w;
        return used + 1;
    }
    used
}

// Keeps the words of a piece of a file, eight bytes each, lowest first.
fn take_piece(words: &mut [u64], used: usize, bytes: &[u8]) -> usize {
    let (whole, _) = bytes.as_chunks::<8>();
    let mut next = used;
    for b in whole {
        next = keep(words, next, u64::from_le_bytes(*b));
    }
    next
}

// Reads a file, and answers how many words are kept of it; none of a file that goes on, or that ends within a word.
fn load(fd: i32, words: &mut [u64]) -> Option<usize> {
    let mut used = 0;
    for _ in 0..PIECES {
        let mut buffer = io::large_buffer();
        let n = io::read_full(fd, &mut buffer);
        used = take_piece(words, used, &buffer[..n]);
        if n < buffer.len() {
            return (n % 8 == 0).then_some(used);
        }
    }
    None
}

// Puts the name that an argument is at a buffer's front, and answers its length: 0 where it is missing or has no room.
fn arg(rt: &HostRuntime, i: usize, path: &mut [u8]) -> usize
    ensures { result ≤ length path.new }
{
    match rt.arg(i, path) {
        Ok(length) => length,
        Err(_) => 0,
    }
}

// Opens the file of that name.
fn open(rt: &HostRuntime, path: &[u8]) -> std::io::Result<File> {
    File::open(rt, file_name(path)?)
}

// Opens the file that an argument names and reads it.
fn load_arg(rt: &HostRuntime, i: usize, words: &mut [u64]) -> Option<usize> {
    let mut path = io::buffer();
    let length = arg(rt, i, &mut path);
    let file = open(rt, &path[..length]).ok()?;
    load(file.as_raw_fd(), words)
}

// Spaces up to a column.
fn fill(page: &mut Page, column: usize) {
    for _ in page.used()..column {
        page.byte(b' ');
    }
}

// A kind of vote in words.
fn put_kind(page: &mut Page, kind: VoteKind) {
    match kind {
        VoteKind::Notar => page.text(b"notar"),
        VoteKind::NotarFallback => page.text(b"notar-fallback"),
        VoteKind::Skip => page.text(b"skip"),
        VoteKind::SkipFallback => page.text(b"skip-fallback"),
        _ => page.text(b"final"),
    }
}

// A block's number, a dash where the kind carries none.
fn put_block(page: &mut Page, block: u64) {
    if block == 0 {
        return page.byte(b'-');
    }
    page.decimal(block);
}

// The end of a name, as much of it as a line has room for.
fn put_name(page: &mut Page, name: &[u8]) {
    if name.len() <= NAME_ROOM {
        return page.text(name);
    }
    let from = name.len() - NAME_ROOM;
    page.text(&name[from..]);
}

// The file that an argument names.
fn put_file(rt: &HostRuntime, page: &mut Page, i: usize) {
    let mut path = io::buffer();
    let length = arg(rt, i, &mut path);
    put_name(page, &path[..length]);
}

// One vote, in columns: its slot, node, kind and block, and the file that has it.
fn vote_line(rt: &HostRuntime, page: &mut Page, line: &[u64; LINE_WORDS]) -> Result<(), Unwritten> {
    let [slot, node, kind, block, side] = *line;
    page.decimal(slot);
    fill(page, NODE_COLUMN);
    page.decimal(node);
    fill(page, KIND_COLUMN);
    put_kind(page, VoteKind::from(kind));
    fill(page, BLOCK_COLUMN);
    put_block(page, block);
    fill(page, SIDE_COLUMN);
    page.decimal(side);
    page.byte(b' ');
    put_file(rt, page, side as usize);
    end_line(page)
}

// The last line: how many votes differ.
fn count_line(page: &mut Page, lines: usize) -> Result<(), Unwritten> {
    if lines == 0 {
        return tell_line(page, b"equal: both have the same stored votes");
    }
    page.text(b"differ: ");
    page.decimal(lines as u64);
    page.text(b" stored vote");
    if lines != 1 {
        page.byte(b's');
    }
    end_line(page)
}

// The columns' names, where there is a line under them.
fn heading(page: &mut Page, lines: usize) -> Result<(), Unwritten> {
    if lines == 0 {
        return Ok(());
    }
    tell_line(
        page,
        b"slot  node  kind            block                 only in",
    )
}

// All lines of the list, and their number.
fn tell(rt: &HostRuntime, page: &mut Page, list: &[u64], lines: usize) -> Result<(), Unwritten> {
    heading(page, lines)?;
    let (all, _) = list.as_chunks::<LINE_WORDS>();
    let listed = lines.min(all.len());
    for line in &all[..listed] {
        vote_line(rt, page, line)?;
    }
    count_line(page, lines)
}

// What stands on standard error where nothing is compared: the file, and why.
fn blame(rt: &HostRuntime, page: &mut [u8], i: usize, why: &[u8]) {
    let mut path = io::buffer();
    let length = arg(rt, i, &mut path);
    let mut line = Page::new(page);
    line.text(b"differ: ");
    line.text(&path[..length]);
    line.text(why);
    line.byte(b'\n');
    let _ = send_to(ERR, line.buffer(), line.used());
}

// A number that is not 0: the side's record is bad, or there are more lines than there is room for.
fn refuse(rt: &HostRuntime, page: &mut [u8], number: u64, beside: usize) {
    if number == 17 {
        blame(rt, page, beside, b": this is no node's record");
        return;
    }
    let mut line = Page::new(page);
    line.text(b"differ: ");
    line.decimal(beside as u64);
    line.text(b" stored votes differ, and 40000 lines are the most that are listed\n");
    let _ = send_to(ERR, line.buffer(), line.used());
}

// Compares two records.
fn compare(rt: &HostRuntime, page: &mut [u8], first: &[u64], second: &[u64]) {
    let mut list = [0u64; LIST_WORDS];
    let a = differ(first, second, &mut list);
    let number = differ_number(a);
    let lines = differ_value(a);
    if number != 0 {
        refuse(rt, page, number, lines);
        return;
    }
    let mut columns = Page::new(page);
    if (lines == 1) & (list[4] == 0) {
        let _ = tell_line(
            &mut columns,
            b"differ: the stake tables, and so no vote was compared",
        );
        return;
    }
    if tell(rt, &mut columns, &list, lines).is_err() {
        io::write_all(ERR, b"differ: a line was not written, and none follows\n");
    }
}

// Reads the second file and compares.
fn with_second(rt: &HostRuntime, page: &mut [u8], first: &[u64]) {
    let mut words = [0u64; RECORD_ROOM];
    let Some(many) = load_arg(rt, 2, &mut words) else {
        return blame(rt, page, 2, UNREAD);
    };
    let kept = many.min(words.len());
    compare(rt, page, first, &words[..kept]);
}

// Reads the first file, then the second.
fn with_first(rt: &HostRuntime, page: &mut [u8]) {
    let mut words = [0u64; RECORD_ROOM];
    let Some(many) = load_arg(rt, 1, &mut words) else {
        return blame(rt, page, 1, UNREAD);
    };
    let kept = many.min(words.len());
    with_second(rt, page, &words[..kept]);
}

// What the program says of itself.
fn help(page: &mut [u8]) -> Result<(), Unwritten> {
    let mut lines = Page::new(page);
    tell_line(&mut lines, b"usage: differ FILE FILE")?;
    tell_line(
        &mut lines,
        b"Lists the stored votes in which two saved records differ: slot, node, kind,",
    )?;
    tell_line(
        &mut lines,
        b"block (- where the kind carries none), and which of the two has the vote.",
    )?;
    tell_line(
        &mut lines,
        b"The last line begins with `equal` or `differ`. A file is a record's words,",
    )?;
    tell_line(&mut lines, b"8 bytes each, lowest byte first.")
}

// Whether the program has an argument of that number.
fn has_arg(rt: &HostRuntime, i: usize) -> bool {
    let mut path = io::buffer();
    match rt.arg(i, &mut path) {
        Err(FillError::NotPresent) => false,
        _ => true,
    }
}

fn main(rt: HostRuntime) {
    let mut page = [0u8; PAGE_ROOM];
    if !has_arg(&rt, 2) {
        let _ = help(&mut page);
        return;
    }
    with_first(&rt, &mut page);
}
