// What a line of the script leads to.
ghost use Rattle.commands.specs.Commands.{Heard};

use commands::{Command, Reading, command_of, reading_on};
use comparing::{certificates, differ, parents, save, stands, vouched};
use door::Unwritten;
use piecing::{end, piece};
use replies::Stop;
use script::{Word, word_at};
use telling::{block, look, node_words, start, take, timeout, tray, vote, watch};

// Every answer has room in a page: at most 160 records of 63 bytes with the numbers of 8,191 votes, three bytes each, 1,536 bytes in hex, or
// the 15,360 lines of a comparison, 33 bytes each.
pub const PAGE_ROOM: usize = 506912;

// The words of the largest record, that of 2,048 nodes.
pub const RECORD_WORDS: usize = 260473;

pub const OUTBOX_WORDS: usize = 480;

// The words and bytes of a proof that arrives in pieces.
pub const PIECES_WORDS: usize = 2050;

pub const PIECES_BYTES: usize = 1341;

// What a script is answered with: the page in which an answer is built, the node's record, the one that was set aside, what the node made last,
// and a proof that arrives in pieces.
#[derive(Drop)]
pub struct Desk {
    pub page: [u8; PAGE_ROOM],
    pub rec: [u64; RECORD_WORDS],
    pub aside: [u64; RECORD_WORDS],
    pub outbox: [u64; OUTBOX_WORDS],
    pub pieces: [u64; PIECES_WORDS],
    pub front: [u8; PIECES_BYTES],
}

// Answers a command that tells the node nothing, from as many of the words as are the node's.
fn ask(page: &mut [u8], c: Command, line: &[u8], at: usize, rec: &[u64]) -> Result<(), Stop> {
    let words = node_words(rec);
    asking::ask(page, c, line, at, &rec[..words])
}

// Answers a line that is no command, and reads something or nothing; both nodes are lent to be read.
fn read(
    page: &mut [u8],
    line: &[u8],
    at: usize,
    rec: &[u64],
    aside: &[u64],
) -> Result<(), Unwritten> {
    let r = reading_on(line);
    match r {
        Reading::Parents => parents(page, aside, rec),
        Reading::Certificates => certificates(page, line, at, rec),
        _ => {
            let words = node_words(rec);
            asking::read(page, r, line, at, &rec[..words])
        }
    }
}

// Answers a command by which nodes are compared, one that only asks, or a line that is none; the node is lent to be read.
fn others(
    rt: &HostRuntime,
    page: &mut [u8],
    c: Command,
    line: &[u8],
    at: usize,
    rec: &[u64],
    aside: &mut [u64],
) -> Result<(), Stop> {
    match c {
        Command::Aside => comparing::aside(page, rec, aside)?,
        Command::Differ => differ(page, aside, rec)?,
        Command::Save => save(rt, page, line, at, rec)?,
        Command::Stands => stands(page, rec)?,
        Command::Vouched => vouched(page, line, at, aside, rec)?,
        Command::Other => read(page, line, at, rec, aside)?,
        _ => ask(page, c, line, at, rec)?,
    }
    Ok(())
}

// Answers a line; nothing is answered where it has no word. A line that is none of the commands leaves record and outbox as they were,
// and so does every command that only asks.
#[tactic(auto, using(commands::proofs::Laws::telling), unfolding(commands::specs::Commands::tells))]
pub fn obey(
    rt: &HostRuntime,
    page: &mut [u8],
    line: &[u8],
    rec: &mut [u64],
    aside: &mut [u64],
    outbox: &mut [u64],
    pieces: &mut [u64],
    front: &mut [u8],
) -> Result<(), Stop>
    ensures { Heard line.now rec.old outbox.old rec.new outbox.new }
{
    let Word { from, to } = word_at(line, 0);
    if to <= from {
        return Ok(());
    }
    let c = command_of(line);
    match c {
        Command::Start => Ok(start(page, line, to, rec)?),
        Command::Watch => Ok(watch(page, line, to, rec)?),
        Command::Vote => Ok(vote(page, line, to, rec, outbox)?),
        Command::Block => Ok(block(page, line, to, rec, outbox)?),
        Command::Timeout => Ok(timeout(page, line, to, rec, outbox)?),
        Command::Look => Ok(look(page, rec, outbox)?),
        Command::Tray => Ok(tray(page, line, to, rec, outbox)?),
        Command::Take => Ok(take(page, line, to, rec, outbox)?),
        Command::Piece => Ok(piece(page, line, to, pieces, front)?),
        Command::End => Ok(end(page, pieces, front)?),
        _ => others(rt, page, c, line, to, rec, aside),
    }
}
