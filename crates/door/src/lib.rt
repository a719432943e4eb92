// Where a line leaves the program: whole and in one go, or not at all and said so. No contract can say what is written; these say
// when nothing is.
#![tactic(auto)]

ghost use Rattle.std.specs.Prelude.{◌≡◌, ◌≤◌, IsErr, MatchResult, length};
ghost use Rattle.std.specs.Str.{IsUtf8};
ghost use Rattle.door.specs.Sent.{NextLine, Whole};

use lines::Page;
use std::io::{Error, ErrorKind, Write};

const OUT: i32 = 1;

const ERR: i32 = 2;

// A text that was not written whole, and after which nothing is.
#[derive(Clone, Copy, Debug, PartialEq, Eq)]
pub struct Unwritten;

// Writes the text at a page's front to an open file, all of it. A page that is full may hold less.
pub fn send_to(fd: i32, page: &[u8], used: usize) -> Result<(), Unwritten>
    ensures { Whole (length page.now) used result }
{
    if used < page.len() && io::write_all(fd, &page[..used]) {
        return Ok(());
    }
    Err(Unwritten)
}

// The same to standard output.
pub fn send(page: &[u8], used: usize) -> Result<(), Unwritten>
    ensures { Whole (length page.now) used result }
{
    send_to(OUT, page, used)
}

// The same of the text that was put on a page.
pub fn send_page(page: &Page) -> Result<(), Unwritten>
    ensures { Whole (length page.now.bytes.now) page.now.at result }
{
    send(page.buffer(), page.used())
}

// The same into a writer, with the error where not all of it was taken.
pub fn send_into<W: Write>(out: &mut W, page: &[u8], used: usize) -> std::io::Result<()>
    ensures { length page.now ≤ used → IsErr result }
{
    if page.len() <= used {
        return Err(Error::from(ErrorKind::WriteZero));
    }
    out.write_all(&page[..used])
}

// Ends the line that stands on a page and sends it. The next line begins at the page's front, or at its end where the line was not
// sent, so that nothing follows it.
pub fn end_line(page: &mut Page) -> Result<(), Unwritten>
    ensures { NextLine page.old page.new result }
{
    page.byte(b'\n');
    let sent = send_page(page);
    match sent {
        Ok(()) => page.rewind(),
        Err(_) => page.close(),
    }
    sent
}

// A text as a line of its own, after those that were sent.
pub fn tell_line(page: &mut Page, text: &[u8]) -> Result<(), Unwritten>
    ensures { NextLine page.old page.new result }
{
    page.text(text);
    end_line(page)
}

// Where an error's text ends: before the number that the library puts behind it, in brackets.
fn text_end(text: &[u8]) -> usize
    ensures { result ≤ length text.now }
{
    for (i, b) in text.iter().enumerate() {
        if *b == 0 || text[i..].starts_with(b" (os error ") {
            return i;
        }
    }
    text.len()
}

// Says on standard error in one line what was not done, and why.
pub fn fail(what: &[u8], error: Error) {
    let mut text = [0u8; 256];
    let mut room = &mut text[..];
    let _ = write!(room, "{error}");
    let end = text_end(&text);
    io::write_all(ERR, what);
    io::write_all(ERR, b": ");
    io::write_all(ERR, &text[..end]);
    io::write_all(ERR, b"\n");
}

// A file's name as text: std opens no other.
pub fn file_name(name: &[u8]) -> std::io::Result<&str>
    ensures { MatchResult result (λ text. text.now ≡ name.now) (λ _. IsUtf8 name.now → ⊥) }
{
    str::from_utf8(name).map_err(|_| Error::from(ErrorKind::InvalidFilename))
}
