// The panel: answers a script, one command a line, read from standard input or from the file that the first argument names.
#![tactic(auto)]

mod acts;

use acts::{Desk, OUTBOX_WORDS, PAGE_ROOM, PIECES_BYTES, PIECES_WORDS, RECORD_WORDS, obey};
use door::{fail, file_name};
use replies::{Stop, malformed};
use std::env::{Env, FillError};
use std::fs::File;
use std::io::{Error, Read};

// A line has at most 65,536 bytes without its end; two more are kept, so that a longer one shows.
const LINE_ROOM: usize = 65538;

const LONGEST: usize = 65536;

const ERR: i32 = 2;

// The C library's number for a name that is too long.
const NAME_TOO_LONG: i32 = 36;

// A line as far as it is read, and how much of it is kept.
#[derive(Drop)]
struct Line {
    bytes: [u8; LINE_ROOM],
    kept: usize,
}

// Answers a line without the carriage return at its end. A line that is too long gets ? whatever it holds, spaces alone or a comment
// too; else a comment gets no answer.
fn answer(rt: &HostRuntime, desk: &mut Desk, line: &[u8]) -> Result<(), Stop> {
    let line = line.strip_suffix(b"\r").unwrap_or(line);
    if line.len() > LONGEST {
        return Ok(malformed(&mut desk.page)?);
    }
    if line.starts_with(b"#") {
        return Ok(());
    }
    obey(
        rt,
        &mut desk.page,
        line,
        &mut desk.rec,
        &mut desk.aside,
        &mut desk.outbox,
        &mut desk.pieces,
        &mut desk.front,
    )
}

// Answers the line that is kept, and begins the next one.
fn finish_line(rt: &HostRuntime, desk: &mut Desk, line: &mut Line) -> Result<(), Stop> {
    let kept = line.kept.min(LINE_ROOM);
    line.kept = 0;
    answer(rt, desk, &line.bytes[..kept])
}

// Takes bytes of the script: each goes to the line, where there is room, and a line feed has the line answered.
fn take(rt: &HostRuntime, desk: &mut Desk, line: &mut Line, bytes: &[u8]) -> Result<(), Stop> {
    for b in bytes {
        if *b == b'\n' {
            finish_line(rt, desk, line)?;
        } else {
            keep(line, *b);
        }
    }
    Ok(())
}

// Keeps a byte of a line, where there is room.
fn keep(line: &mut Line, b: u8) {
    let kept = line.kept;
    if kept < LINE_ROOM {
        line.bytes[kept] = b;
        line.kept = kept + 1;
    }
}

// Reads a piece of the script and takes it, and answers how many bytes it was: none at the script's end.
fn take_piece<R: Read>(
    rt: &HostRuntime,
    script: &mut R,
    desk: &mut Desk,
    line: &mut Line,
) -> Result<usize, Stop> {
    let mut buffer = [0u8; 65536];
    match script.read(&mut buffer) {
        Err(e) => {
            fail(b"panel: the script was not read to its end", e);
            Err(Stop::Unread)
        }
        Ok(n) => {
            take(rt, desk, line, &buffer[..n])?;
            Ok(n)
        }
    }
}

// Answers the whole script. A proved loop has to end and nothing says that a script does, so the pieces are counted up to a number that no
// run reaches.
fn run<R: Read>(rt: &HostRuntime, script: &mut R, desk: &mut Desk) -> Result<(), Stop> {
    let mut line = Line {
        bytes: [0; LINE_ROOM],
        kept: 0,
    };
    for _ in 0..u64::MAX {
        if take_piece(rt, script, desk, &mut line)? == 0 {
            return finish_line(rt, desk, &mut line);
        }
    }
    Ok(())
}

// Answers a script, for a node that is not started yet, and says on standard error what was not done.
fn play<R: Read>(rt: &HostRuntime, script: &mut R) {
    let mut desk = Desk {
        page: [0; PAGE_ROOM],
        rec: [0; RECORD_WORDS],
        aside: [0; RECORD_WORDS],
        outbox: [0; OUTBOX_WORDS],
        pieces: [0; PIECES_WORDS],
        front: [0; PIECES_BYTES],
    };
    if let Err(Stop::Unwritten) = run(rt, script, &mut desk) {
        io::write_all(
            ERR,
            b"panel: an answer was not written whole, and none follows\n",
        );
    }
}

// Opens the file of that name.
fn open(rt: &HostRuntime, path: &[u8]) -> std::io::Result<File> {
    File::open(rt, file_name(path)?)
}

// Answers the script in a file.
fn play_file(rt: &HostRuntime, path: &[u8]) {
    match open(rt, path) {
        Ok(mut file) => play(rt, &mut file),
        Err(e) => fail(path, e),
    }
}

fn main(rt: HostRuntime) {
    let mut path = [0u8; 4096];
    match rt.arg(1, &mut path) {
        Ok(length) => play_file(&rt, &path[..length]),
        Err(FillError::TooLong) => fail(b"panel: FILE", Error::from_raw_os_error(NAME_TOO_LONG)),
        Err(FillError::NotPresent) => play(&rt, &mut rt.stdin()),
    }
}
