// Which command a line of a script is: by its first word, and by what follows it.
#![tactic(auto)]

ghost use Rattle.std.specs.Prelude.{◌≡◌};
ghost use Rattle.commands.specs.Commands.{same_text, input_of, exactly, at_least, one_word, packet_and_stakes, packet_alone, count_and_message, arguments_fit, command_of, reading_of, reading_fits, reading_on};

use hex_bytes::read_hex;
use script::{Word, read_numbers, word_at};

// The commands, and one case for every other line.
#[derive(Clone, Copy)]
pub enum Command {
    Start,
    Watch,
    Vote,
    Block,
    Timeout,
    Look,
    Tray,
    Take,
    Cert,
    Proof,
    Check,
    CheckProof,
    Card,
    Pack,
    Unpack,
    Piece,
    End,
    Aside,
    Differ,
    Save,
    Board,
    Votes,
    Why,
    Help,
    Quit,
    Stands,
    Vouched,
    Other,
}

// What a line reads that is none of the commands.
#[derive(Clone, Copy)]
pub enum Reading {
    Blocks,
    Marks,
    Head,
    Certificates,
    Weights,
    Parents,
    Topic,
    Nothing,
}

// Whether two texts are the same.
pub fn same(a: &[u8], b: &[u8]) -> bool
    ensures { result ≡ same_text a.now b.now }
{
    a == b
}

// The command that a word is.
#[tactic(auto, unfolding(crate::specs::Commands::input_of, crate::specs::Commands::question_of, crate::specs::Commands::message_of, crate::specs::Commands::pieces_of, crate::specs::Commands::compared_of, crate::specs::Commands::inquest_of, crate::specs::Commands::view_of, rulebook::specs::Tools::choose))]
fn command_named(word: &[u8]) -> Command
    ensures { result ≡ input_of word.now }
{
    match word {
        b"start" => Command::Start,
        b"watch" => Command::Watch,
        b"vote" => Command::Vote,
        b"block" => Command::Block,
        b"timeout" => Command::Timeout,
        b"look" => Command::Look,
        b"tray" => Command::Tray,
        b"take" => Command::Take,
        b"cert" => Command::Cert,
        b"proof" => Command::Proof,
        b"check" => Command::Check,
        b"checkproof" => Command::CheckProof,
        b"card" => Command::Card,
        b"pack" => Command::Pack,
        b"unpack" => Command::Unpack,
        b"piece" => Command::Piece,
        b"end" => Command::End,
        b"aside" => Command::Aside,
        b"differ" => Command::Differ,
        b"save" => Command::Save,
        b"stands" => Command::Stands,
        b"vouched" => Command::Vouched,
        b"board" => Command::Board,
        b"votes" => Command::Votes,
        b"why" => Command::Why,
        b"help" => Command::Help,
        b"quit" => Command::Quit,
        _ => Command::Other,
    }
}

// Whether the rest of a line is so many numbers.
#[tactic(auto, unfolding(crate::specs::Commands::exactly))]
fn exactly(line: &[u8], at: usize, many: usize) -> bool
    ensures { result ≡ exactly line.now at many }
{
    read_numbers(line, at, &mut []).is_ok_and(|n| n == many)
}

// Whether the rest of a line is so many numbers or more.
#[tactic(auto, unfolding(crate::specs::Commands::at_least))]
fn at_least(line: &[u8], at: usize, many: usize) -> bool
    ensures { result ≡ at_least line.now at many }
{
    read_numbers(line, at, &mut []).is_ok_and(|n| many <= n)
}

// Whether the rest of a line is one word, whatever it is.
fn one_word(line: &[u8], at: usize) -> bool
    ensures { result ≡ one_word line.now at }
{
    let Word { from, to } = word_at(line, at);
    let ended = exactly(line, to, 0);
    (from < to) & ended
}

// Whether the rest of a line is a packet in hex, of at most 32,768 bytes, and then numbers.
fn packet_and_stakes(line: &[u8], at: usize) -> bool
    ensures { result ≡ packet_and_stakes line.now at }
{
    let Word { from, to } = word_at(line, at);
    if to <= from {
        return false;
    }
    let mut bytes = [0u8; 32768];
    read_hex(&line[from..to], &mut bytes).is_some() && at_least(line, to, 0)
}

// Whether the rest of a line is a packet in hex, of at most 32,768 bytes, and nothing more.
fn packet_alone(line: &[u8], at: usize) -> bool
    ensures { result ≡ packet_alone line.now at }
{
    let w = word_at(line, at);
    let packed = packet_and_stakes(line, at);
    let ended = exactly(line, w.to, 0);
    packed & ended
}

// Whether the rest of a line is a count, a message in hex, of at most 32,768 bytes, and nothing more.
fn count_and_message(line: &[u8], at: usize) -> bool
    ensures { result ≡ count_and_message line.now at }
{
    let to = word_at(line, at).to;
    let counted = exactly(&line[..to], at, 1);
    let packed = packet_alone(line, to);
    counted & packed
}

// Whether what follows a command's word is what it asks for.
#[tactic(auto, unfolding(crate::specs::Commands::arguments_fit))]
fn arguments_fit(c: Command, line: &[u8], at: usize) -> bool
    ensures { result ≡ arguments_fit c line.now at }
{
    match c {
        Command::Start => at_least(line, at, 2),
        Command::Watch => at_least(line, at, 1),
        Command::Vote => exactly(line, at, 4),
        Command::Block => exactly(line, at, 4),
        Command::Timeout => exactly(line, at, 1),
        Command::Look => exactly(line, at, 0),
        Command::Tray => at_least(line, at, 0),
        Command::Take => packet_alone(line, at),
        Command::Cert => exactly(line, at, 3),
        Command::Proof => exactly(line, at, 2),
        Command::Check => packet_and_stakes(line, at),
        Command::CheckProof => packet_and_stakes(line, at),
        Command::Card => exactly(line, at, 1),
        Command::Pack => exactly(line, at, 5),
        Command::Unpack => count_and_message(line, at),
        Command::Piece => packet_and_stakes(line, at),
        Command::End => exactly(line, at, 0),
        Command::Aside => exactly(line, at, 0),
        Command::Differ => exactly(line, at, 0),
        Command::Save => one_word(line, at),
        Command::Board => exactly(line, at, 0) | (exactly(line, at, 1) | exactly(line, at, 2)),
        Command::Votes => exactly(line, at, 0) | exactly(line, at, 2),
        Command::Why => exactly(line, at, 1),
        Command::Help => exactly(line, at, 0),
        Command::Quit => exactly(line, at, 0),
        Command::Stands => exactly(line, at, 0),
        Command::Vouched => exactly(line, at, 0) | packet_alone(line, at),
        Command::Other => false,
    }
}

// The command that a line is.
pub fn command_of(line: &[u8]) -> Command
    ensures { result ≡ command_of line.now }
{
    let Word { from, to } = word_at(line, 0);
    let c = command_named(&line[from..to]);
    if arguments_fit(c, line, to) {
        return c;
    }
    Command::Other
}

// What a word reads.
#[tactic(auto, unfolding(crate::specs::Commands::reading_of, rulebook::specs::Tools::choose))]
fn reading_named(word: &[u8]) -> Reading
    ensures { result ≡ reading_of word.now }
{
    match word {
        b"blocks" => Reading::Blocks,
        b"marks" => Reading::Marks,
        b"head" => Reading::Head,
        b"certificates" => Reading::Certificates,
        b"weights" => Reading::Weights,
        b"parents" => Reading::Parents,
        b"help" => Reading::Topic,
        _ => Reading::Nothing,
    }
}

// Whether what follows the word is what is asked for.
#[tactic(auto, unfolding(crate::specs::Commands::reading_fits))]
fn reading_fits(r: Reading, line: &[u8], at: usize) -> bool
    ensures { result ≡ reading_fits r line.now at }
{
    match r {
        Reading::Blocks => exactly(line, at, 1),
        Reading::Marks => exactly(line, at, 1),
        Reading::Head => exactly(line, at, 0),
        Reading::Certificates => exactly(line, at, 1),
        Reading::Weights => exactly(line, at, 2),
        Reading::Parents => exactly(line, at, 0),
        Reading::Topic => one_word(line, at),
        Reading::Nothing => false,
    }
}

// What a line reads.
pub fn reading_on(line: &[u8]) -> Reading
    ensures { result ≡ reading_on line.now }
{
    let Word { from, to } = word_at(line, 0);
    let r = reading_named(&line[from..to]);
    if reading_fits(r, line, to) {
        return r;
    }
    Reading::Nothing
}
