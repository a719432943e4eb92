// The text of the panel's answers, put on a page: a lent buffer with the place in it. A place that is the buffer's end says that it was
// full.
#![tactic(auto)]

ghost use Rattle.std.specs.Prelude.{◌≡◌, [], ◌∷◌, ◌++◌, ◌+◌, ◌≤◌, ◌<◌, ◌↔◌, IsTrue, length, take};
ghost use Rattle.lines.specs.Text.{decimal, hex_pair, hex_text, record_text, records_text};
ghost use Rattle.lines.specs.Text.{glyph as Text·glyph};
ghost use Rattle.lines.specs.Page.{Wrote};
ghost use Rattle.lines.specs.Answers.{number_line, spaced, step_line, votes_to, votes_text, tray_line, packet_line, message_line, missing_line, check_line};
ghost use Rattle.lines.specs.Figures.{vote_text, share_text, missing_text};

use rulebook::{Node, Slot, Weight};

// A digit of base ten or sixteen.
fn glyph(d: u64) -> u8
    requires { d < 16 }
    ensures { result ≡ Text·glyph d }
{
    if d < 10 {
        (48 + d) as u8
    } else {
        (55 + d) as u8
    }
}

// A lent buffer, and the place where the next byte goes.
#[derive(Drop)]
pub struct Page<'a> {
    bytes: &'a mut [u8],
    at: usize,
}

impl<'a> Page<'a> {
    // The front of a buffer.
    pub fn new(bytes: &'a mut [u8]) -> Page<'a>
        ensures lent { result.bytes.ghost_name ≡ bytes.entry.ghost_name }
        ensures same { result.bytes.now ≡ bytes.old }
        ensures front { result.at ≡ 0 }
    {
        Page { bytes, at: 0 }
    }

    // A place of a buffer.
    pub fn at(bytes: &'a mut [u8], at: usize) -> Page<'a>
        ensures lent { result.bytes.ghost_name ≡ bytes.entry.ghost_name }
        ensures same { result.bytes.now ≡ bytes.old }
        ensures place { result.at ≡ at }
    {
        Page { bytes, at }
    }

    // The place after what was put.
    pub fn used(&self) -> usize
        ensures { result ≡ self.now.at }
    {
        self.at
    }

    // The text that was put.
    pub fn written(&self) -> &[u8]
        ensures { result.now ≡ take self.now.at self.now.bytes.now }
    {
        if self.at < self.bytes.len() {
            return &self.bytes[..self.at];
        }
        self.bytes
    }

    // The whole buffer, with what stands in it after the text too.
    pub fn buffer(&self) -> &[u8]
        ensures { result.now ≡ self.now.bytes.now }
    {
        self.bytes
    }

    // Whether no byte has room any more, so that a text may have been cut.
    pub fn is_full(&self) -> bool
        ensures { IsTrue result ↔ length self.now.bytes.now ≤ self.now.at }
    {
        self.bytes.len() <= self.at
    }

    // Goes back to the front.
    pub fn rewind(&mut self)
        ensures { self.new ≡ record self.old { at = 0 } }
    {
        self.at = 0;
    }

    // Goes to the buffer's end, where nothing has room.
    pub fn close(&mut self)
        ensures { self.new ≡ record self.old { at = length self.old.bytes.now } }
    {
        self.at = self.bytes.len();
    }

    // Puts one byte.
    pub fn byte(&mut self, b: u8)
        ensures { Wrote self.old (b ∷ []) self.new }
    {
        if self.at < self.bytes.len() {
            self.bytes[self.at] = b;
            self.at += 1;
        }
    }

    // Puts a text as it stands.
    pub fn text(&mut self, text: &[u8])
        ensures { Wrote self.old text.now self.new }
    {
        for b in text {
            self.byte(*b);
        }
    }

    // Puts a number in decimal.
    pub fn decimal(&mut self, n: u64)
        ensures { Wrote self.old (decimal n) self.new }
    {
        if n < 10 {
            return self.byte(glyph(n));
        }
        self.decimal(n / 10);
        self.byte(glyph(n % 10));
    }

    // Puts a byte as two hex digits.
    fn pair(&mut self, b: u8)
        ensures { Wrote self.old (hex_pair b) self.new }
    {
        let w = u64::from(b);
        self.byte(glyph(w / 16));
        self.byte(glyph(w % 16));
    }

    // Puts bytes in pairs of hex digits, a dash for none.
    pub fn hex(&mut self, bytes: &[u8])
        ensures { Wrote self.old (hex_text bytes.now) self.new }
    {
        if bytes.is_empty() {
            return self.byte(b'-');
        }
        for b in bytes {
            self.pair(*b);
        }
    }

    // Puts the bytes at a buffer's front in pairs of hex digits.
    fn front(&mut self, buffer: &[u8], size: usize)
        ensures { Wrote self.old (hex_text (take size buffer.now)) self.new }
    {
        let end = size.min(buffer.len());
        self.hex(&buffer[..end]);
    }

    // Puts a record of an outbox.
    fn record(&mut self, words: &[u64; 3])
        ensures { Wrote self.old (record_text words.now 0) self.new }
    {
        let [kind, slot, block] = *words;
        self.named(b" ", kind);
        self.named(b",", slot);
        self.named(b",", block);
    }

    // Puts the first records of an outbox, as many of them as it has.
    fn records(&mut self, outbox: &[u64], made: usize)
        ensures { Wrote self.old (records_text outbox.now made) self.new }
    {
        let (records, _) = outbox.as_chunks::<3>();
        let many = made.min(records.len());
        for words in &records[..many] {
            self.record(words);
        }
    }

    // Puts a blank and a number.
    fn spaced(&mut self, n: u64)
        ensures { Wrote self.old (spaced n) self.new }
    {
        self.byte(b' ');
        self.decimal(n);
    }

    // A number alone.
    pub fn number_line(&mut self, n: u64)
        ensures { Wrote self.old (number_line n) self.new }
    {
        self.decimal(n);
        self.byte(b'\n');
    }

    // A step's answer: its number, or 0 with the records made.
    pub fn step_line(&mut self, n: u64, made: usize, outbox: &[u64])
        ensures { Wrote self.old (step_line (record { number = n; values = made ∷ [] }) outbox.now) self.new }
    {
        if n != 0 {
            return self.number_line(n);
        }
        self.byte(b'0');
        self.spaced(made as u64);
        self.records(outbox, made);
        self.byte(b'\n');
    }

    // Puts numbers one after another, a blank before each.
    fn numbers(&mut self, numbers: &[u64])
        ensures { Wrote self.old (votes_to numbers.now (length numbers.now)) self.new }
    {
        for n in numbers {
            self.spaced(*n);
        }
    }

    // Puts the numbers of a tray's votes, nothing where there is no vote.
    fn votes(&mut self, answers: &[u64])
        ensures { Wrote self.old (votes_text answers.now) self.new }
    {
        if answers.is_empty() {
            return;
        }
        self.text(b" :");
        self.numbers(answers);
    }

    // A tray's answer: its number, or 0 with the records made and the votes' numbers.
    pub fn tray_line(&mut self, n: u64, made: usize, outbox: &[u64], answers: &[u64])
        ensures { Wrote self.old (tray_line (record { number = n; values = made ∷ [] }) outbox.now answers.now) self.new }
    {
        if n != 0 {
            return self.number_line(n);
        }
        self.byte(b'0');
        self.spaced(made as u64);
        self.records(outbox, made);
        self.votes(answers);
        self.byte(b'\n');
    }

    // A writer's answer: its number, or 0 with the packet at the front of its buffer.
    pub fn packet_line(&mut self, n: u64, written: usize, buffer: &[u8])
        ensures { Wrote self.old (packet_line (record { number = n; values = written ∷ [] }) buffer.now) self.new }
    {
        if n != 0 {
            return self.number_line(n);
        }
        self.byte(b'0');
        self.spaced(written as u64);
        self.byte(b' ');
        self.front(buffer, written);
        self.byte(b'\n');
    }

    // The answer to a vote message: its number, or 0 with the vote's four numbers.
    pub fn message_line(&mut self, n: u64, values: &[u64; 4])
        ensures { Wrote self.old (message_line (record { number = n; values = values.now })) self.new }
    {
        if n != 0 {
            return self.number_line(n);
        }
        self.byte(b'0');
        self.numbers(values);
        self.byte(b'\n');
    }

    // The number 15 and what is missing.
    fn missing_line(&mut self, missing: Weight)
        ensures { Wrote self.old (missing_line missing.0) self.new }
    {
        self.decimal(15);
        self.spaced(missing.0);
        self.byte(b'\n');
    }

    // The checker's answer: 0 with the five values, 15 with what is missing, or its number alone.
    pub fn check_line(&mut self, n: u64, values: &[u64; 5], missing: Weight)
        ensures { Wrote self.old (check_line (record { number = n; values = values.now }) missing.0) self.new }
    {
        if n == 15 {
            return self.missing_line(missing);
        }
        if n != 0 {
            return self.number_line(n);
        }
        self.byte(b'0');
        self.numbers(values);
        self.byte(b'\n');
    }

    // ---- what the board and the list of votes show

    // Puts a text and a number after it.
    pub fn named(&mut self, name: &[u8], n: u64)
        ensures { Wrote self.old (name.now ++ decimal n) self.new }
    {
        self.text(name);
        self.decimal(n);
    }

    // Puts a stored vote: slot, node, kind and block.
    pub fn vote(&mut self, s: Slot, n: Node, kind: u64, block: u64)
        ensures { Wrote self.old (vote_text s.0 n.0 kind block) self.new }
    {
        self.decimal(s.0 as u64);
        self.spaced(n.0 as u64);
        self.spaced(kind);
        self.spaced(block);
    }

    // Puts a weight and its percent of the total.
    pub fn share(&mut self, weight: Weight, percent: u64)
        ensures { Wrote self.old (share_text weight.0 percent) self.new }
    {
        self.spaced(weight.0);
        self.named(b" (", percent);
        self.text(b"%)");
    }

    // Puts what is missing to a certificate, and its name; nothing where it is held.
    pub fn missing(&mut self, missing: Weight, name: &[u8])
        ensures { Wrote self.old (missing_text missing.0 name.now) self.new }
    {
        if missing.0 == 0 {
            return;
        }
        self.named(b", ", missing.0);
        self.text(b" more for ");
        self.text(name);
    }
}
