// The commands that only ask: which of a line's words go to which function, and how it is answered.
#![tactic(auto)]

use commands::{Command, Reading};
use door::Unwritten;
use help::{help, topic, why};
use hex_bytes::read_hex;
use quointrowel::{
    qr_block_weights, qr_card, qr_check_certificate, qr_check_proof, qr_final_block, qr_head,
    qr_is_armed, qr_kept_blocks, qr_read_vote, qr_slot_marks, qr_write_certificate, qr_write_proof,
    qr_write_vote,
};
use replies::{Stop, checked, malformed, packet, records, vote_read};
use rulebook::{Node, Slot, Weight};
use script::{Word, numbers, read_numbers, word_at};

// cert KIND SLOT BLOCK
fn cert(page: &mut [u8], line: &[u8], at: usize, rec: &[u64]) -> Result<(), Unwritten> {
    let [kind, slot, block] = numbers::<3>(line, at);
    let mut buffer = [0u8; 768];
    let mut written = 0;
    let n = qr_write_certificate(rec, &mut buffer, &mut written, kind, slot as usize, block);
    packet(page, n, written, &buffer)
}

// proof SLOT BLOCK
fn proof(page: &mut [u8], line: &[u8], at: usize, rec: &[u64]) -> Result<(), Unwritten> {
    let [slot, block] = numbers::<2>(line, at);
    let mut buffer = [0u8; 1536];
    let mut written = 0;
    let n = qr_write_proof(rec, &mut buffer, &mut written, slot as usize, block);
    packet(page, n, written, &buffer)
}

// card SLOT; as an accepted check the card has five values, and nothing is missing to it.
fn card(page: &mut [u8], line: &[u8], at: usize, rec: &[u64]) -> Result<(), Unwritten> {
    let [slot] = numbers::<1>(line, at);
    let mut values = [0u64; 5];
    let n = qr_card(rec, slot as usize, &mut values);
    checked(page, n, &values, Weight(0))
}

// How many of a slot's four places hold a block: they are filled from the front.
fn places_taken(values: &[u64; 12]) -> usize {
    let (places, _) = values.as_chunks::<3>();
    places.iter().take_while(|place| place[0] != 0).count()
}

// blocks SLOT; three numbers a block, as a step tells its records.
fn blocks(page: &mut [u8], line: &[u8], at: usize, rec: &[u64]) -> Result<(), Unwritten> {
    let [slot] = numbers::<1>(line, at);
    let mut values = [0u64; 12];
    let n = qr_kept_blocks(rec, slot as usize, &mut values);
    records(page, n, places_taken(&values), &values)
}

// marks SLOT; each of the three readers answers the same number, and the line has four values, as a vote that was read.
fn marks(page: &mut [u8], line: &[u8], at: usize, rec: &[u64]) -> Result<(), Unwritten> {
    let [slot] = numbers::<1>(line, at);
    let mut armed = 0;
    let mut block = 0;
    let mut values = [0u64; 2];
    qr_is_armed(rec, slot as usize, &mut armed);
    qr_final_block(rec, slot as usize, &mut block);
    let n = qr_slot_marks(rec, slot as usize, &mut values);
    let [timed_out, conflict] = values;
    vote_read(page, n, &[armed, timed_out, block, conflict])
}

// head
fn head(page: &mut [u8], rec: &[u64]) -> Result<(), Unwritten> {
    let mut values = [0u64; 4];
    let n = qr_head(rec, &mut values);
    vote_read(page, n, &values)
}

// weights SLOT BLOCK
fn weights(page: &mut [u8], line: &[u8], at: usize, rec: &[u64]) -> Result<(), Unwritten> {
    let [slot, block] = numbers::<2>(line, at);
    let mut values = [0u64; 4];
    let n = qr_block_weights(rec, slot as usize, block, &mut values);
    vote_read(page, n, &values)
}

// check HEX STAKE.., checkproof HEX STAKE..; a line has no room for more than 32,768 bytes of packet, and 2,049 stakes are kept, which
// are too many already.
fn check<F: Fn(&[u64], &[u8], &mut [u64; 5], &mut u64) -> u64>(
    page: &mut [u8],
    line: &[u8],
    at: usize,
    judge: F,
) -> Result<(), Unwritten>
    requires { F.IsAlwaysCallable judge }
{
    let Word { from, to } = word_at(line, at);
    let mut bytes = [0u8; 32768];
    let Some(size) = read_hex(&line[from..to], &mut bytes) else {
        return malformed(page);
    };
    let mut stakes = [0u64; 2049];
    let Ok(many) = read_numbers(line, to, &mut stakes) else {
        return malformed(page);
    };
    let kept = many.min(stakes.len());
    let mut values = [0u64; 5];
    let mut missing = 0;
    let n = judge(&stakes[..kept], &bytes[..size], &mut values, &mut missing);
    checked(page, n, &values, Weight(missing))
}

// pack COUNT KIND NODE SLOT BLOCK
fn pack(page: &mut [u8], line: &[u8], at: usize) -> Result<(), Unwritten> {
    let [count, kind, node, slot, block] = numbers::<5>(line, at);
    let mut buffer = [0u8; 16];
    let mut written = 0;
    let n = qr_write_vote(
        &mut buffer,
        &mut written,
        count as usize,
        kind,
        node as usize,
        slot as usize,
        block,
    );
    packet(page, n, written, &buffer)
}

// unpack COUNT HEX
fn unpack(page: &mut [u8], line: &[u8], at: usize) -> Result<(), Unwritten> {
    let behind = word_at(line, at).to;
    let [count] = numbers::<1>(&line[..behind], at);
    let Word { from, to } = word_at(line, behind);
    let mut bytes = [0u8; 32768];
    let Some(size) = read_hex(&line[from..to], &mut bytes) else {
        return malformed(page);
    };
    let mut values = [0u64; 4];
    let n = qr_read_vote(count as usize, &bytes[..size], &mut values);
    vote_read(page, n, &values)
}

// board, board SLOT, board SLOT FROM
fn view(page: &mut [u8], line: &[u8], at: usize, rec: &[u64]) -> Result<(), Unwritten> {
    let mut args = [0u64; 2];
    let many = read_numbers(line, at, &mut args);
    let [slot, from] = args;
    match many {
        Ok(0) => board::board(page, rec),
        Ok(1) => board::slot(page, rec, Slot(slot as usize)),
        _ => board::slot_blocks(page, rec, Slot(slot as usize), from),
    }
}

// votes, votes SLOT FROM
fn votes(page: &mut [u8], line: &[u8], at: usize, rec: &[u64]) -> Result<(), Unwritten> {
    let mut args = [0u64; 2];
    let many = read_numbers(line, at, &mut args);
    let [slot, from] = args;
    match many {
        Ok(0) => vote_lines::votes(page, rec),
        _ => vote_lines::slot_votes(page, rec, Slot(slot as usize), Node(from as usize)),
    }
}

// why NUMBER
fn explain(page: &mut [u8], line: &[u8], at: usize) -> Result<(), Unwritten> {
    let [n] = numbers::<1>(line, at);
    why(page, n)
}

// help COMMAND
fn explain_command(page: &mut [u8], line: &[u8], at: usize) -> Result<(), Unwritten> {
    let Word { from, to } = word_at(line, at);
    topic(page, &line[from..to])
}

// Answers a command that tells the node nothing: its words are lent to be read, and no outbox is lent.
pub fn ask(page: &mut [u8], c: Command, line: &[u8], at: usize, node: &[u64]) -> Result<(), Stop> {
    match c {
        Command::Cert => cert(page, line, at, node)?,
        Command::Proof => proof(page, line, at, node)?,
        Command::Check => check(page, line, at, qr_check_certificate)?,
        Command::CheckProof => check(page, line, at, qr_check_proof)?,
        Command::Card => card(page, line, at, node)?,
        Command::Pack => pack(page, line, at)?,
        Command::Unpack => unpack(page, line, at)?,
        Command::Board => view(page, line, at, node)?,
        Command::Votes => votes(page, line, at, node)?,
        Command::Why => explain(page, line, at)?,
        Command::Help => help(page)?,
        Command::Quit => return Err(Stop::Quit),
        _ => malformed(page)?,
    }
    Ok(())
}

// Answers a line that is no command: what it reads of the node, whose words are lent to be read, or of a command.
pub fn read(
    page: &mut [u8],
    r: Reading,
    line: &[u8],
    at: usize,
    node: &[u64],
) -> Result<(), Unwritten> {
    match r {
        Reading::Blocks => blocks(page, line, at, node),
        Reading::Marks => marks(page, line, at, node),
        Reading::Head => head(page, node),
        Reading::Weights => weights(page, line, at, node),
        Reading::Topic => explain_command(page, line, at),
        _ => malformed(page),
    }
}
