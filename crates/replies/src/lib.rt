// The panel's answers: each line is built whole in the page and leaves by the door, and the contract says what stood there. An
// answer that was not written is an error.
#![tactic(auto)]

ghost use Rattle.std.specs.Prelude.{◌≡◌, [], ◌∷◌};
ghost use Rattle.std.proofs.lemmas.List.Edits.{sets};
ghost use Rattle.replies.specs.declared.Stop.TheVariants as stop;
ghost use Rattle.lines.specs.Answers.{number_line, step_line, tray_line, packet_line, message_line, check_line};

use door::{Unwritten, send_page};
use lines::Page;
use rulebook::Weight;

// Why no further line of a script is answered: the script said so, an answer was not written, or the script was not read.
#[derive(Clone, Copy, Debug, PartialEq, Eq)]
pub enum Stop {
    Quit,
    Unwritten,
    Unread,
}

impl From<Unwritten> for Stop {
    ghost from_gives = { λ _ r. r ≡ stop.Unwritten };

    fn from(_cut: Unwritten) -> Stop {
        Stop::Unwritten
    }
}

// A line that is no command.
pub fn malformed(page: &mut [u8]) -> Result<(), Unwritten>
    ensures { page.new ≡ sets page.old 0 (63 ∷ 10 ∷ []) }
{
    let mut line = Page::new(page);
    line.text(b"?\n");
    send_page(&line)
}

// A number alone.
pub fn number(page: &mut [u8], n: u64) -> Result<(), Unwritten>
    ensures { page.new ≡ sets page.old 0 (number_line n) }
{
    let mut line = Page::new(page);
    line.number_line(n);
    send_page(&line)
}

// A step's answer: its number, or 0 with the records made.
pub fn records(page: &mut [u8], n: u64, made: usize, outbox: &[u64]) -> Result<(), Unwritten>
    ensures { page.new ≡ sets page.old 0 (step_line (record { number = n; values = made ∷ [] }) outbox.now) }
{
    let mut line = Page::new(page);
    line.step_line(n, made, outbox);
    send_page(&line)
}

// A tray's answer: its number, or 0 with the records made and one number a vote.
pub fn served(
    page: &mut [u8],
    n: u64,
    made: usize,
    outbox: &[u64],
    answers: &[u64],
) -> Result<(), Unwritten>
    ensures { page.new ≡ sets page.old 0 (tray_line (record { number = n; values = made ∷ [] }) outbox.now answers.now) }
{
    let mut line = Page::new(page);
    line.tray_line(n, made, outbox, answers);
    send_page(&line)
}

// A writer's answer: its number, or 0 with the packet.
pub fn packet(page: &mut [u8], n: u64, written: usize, buffer: &[u8]) -> Result<(), Unwritten>
    ensures { page.new ≡ sets page.old 0 (packet_line (record { number = n; values = written ∷ [] }) buffer.now) }
{
    let mut line = Page::new(page);
    line.packet_line(n, written, buffer);
    send_page(&line)
}

// The checker's answer: 0 with the five values, 15 with what is missing, or its number alone.
pub fn checked(page: &mut [u8], n: u64, values: &[u64; 5], missing: Weight) -> Result<(), Unwritten>
    ensures { page.new ≡ sets page.old 0 (check_line (record { number = n; values = values.now }) missing.0) }
{
    let mut line = Page::new(page);
    line.check_line(n, values, missing);
    send_page(&line)
}

// The answer to a vote message: its number, or 0 with the vote's four numbers.
pub fn vote_read(page: &mut [u8], n: u64, values: &[u64; 4]) -> Result<(), Unwritten>
    ensures { page.new ≡ sets page.old 0 (message_line (record { number = n; values = values.now })) }
{
    let mut line = Page::new(page);
    line.message_line(n, values);
    send_page(&line)
}
