// Feeds spoiled records to step and to the writers. A line of the input that begins with + puts words into the record that is to
// be spoiled, PLACE VALUE by PLACE VALUE; a line of numbers puts such words into a copy of it, which is then asked for a look, a
// certificate and a proof: their numbers are told, and whether record, outbox and buffers are as found. Any other line is a title.
#![tactic(auto)]

use node::step;
use page::{end_line, say, tell};
use rulebook::{Input, Node, Refusal, Slot};
use script::read_numbers;
use slices::{copy_words, put_word};
use starts::{start, watch};
use writers::{write_certificate, write_proof};

// The words of a record with two places.
const RECORD_WORDS: usize = 1251;

const MOST_NUMBERS: usize = 64;

// Puts words into a record, PLACE VALUE by PLACE VALUE.
fn put_all(rec: &mut [u64], numbers: &[u64], count: usize) {
    let many = count.min(numbers.len());
    let (pairs, _) = numbers[..many].as_chunks::<2>();
    for [place, value] in pairs {
        put_word(rec, *place as usize, *value);
    }
}

fn number(n: u64) {
    say(b" ");
    tell(n);
}

// An answer's number, 0 where it is no refusal.
fn tell_answer<T: Drop>(answer: Result<T, Refusal>) {
    match answer {
        Ok(_) => number(0),
        Err(r) => number(u64::from(r)),
    }
}

// A look, a certificate and a proof asked of a record; then whether it is still the other one, and all lent memory as lent.
fn ask(rec: &mut [u64], other: &[u64]) {
    let lent = [9u64; 480];
    let mut outbox = [9u64; 480];
    let mut first = [9u8; 32];
    let mut second = [9u8; 64];
    tell_answer(step(rec, &mut outbox, Input::Look));
    tell_answer(write_certificate(rec, &mut first, 2, Slot(1), 7));
    tell_answer(write_proof(rec, &mut second, Slot(1), 7));
    if &*rec == other && outbox == lent && first == [9; 32] && second == [9; 64] {
        say(b" as found\n");
    } else {
        say(b" changed\n");
    }
}

// Asks two copies of the record with these words put in.
fn spoil(sound: &[u64], numbers: &[u64], count: usize) {
    let mut rec = [0u64; RECORD_WORDS];
    let mut other = [0u64; RECORD_WORDS];
    copy_words(sound, &mut rec);
    copy_words(sound, &mut other);
    put_all(&mut rec, numbers, count);
    put_all(&mut other, numbers, count);
    ask(&mut rec, &other);
}

fn obey(line: &[u8], sound: &mut [u64]) {
    let mut numbers = [0u64; MOST_NUMBERS];
    say(line);
    if line.starts_with(b"+") {
        match read_numbers(line, 1, &mut numbers) {
            Ok(count) => put_all(sound, &numbers, count),
            Err(word) => put_all(sound, &numbers, word.before),
        }
        return end_line();
    }
    match read_numbers(line, 0, &mut numbers) {
        Ok(count) => spoil(sound, &numbers, count),
        Err(_) => end_line(),
    }
}

// Every line that is ended.
fn obey_lines(bytes: &[u8], sound: &mut [u64]) {
    for line in bytes.split_inclusive(|b| *b == b'\n') {
        if let Some(line) = line.strip_suffix(b"\n") {
            obey(line, sound);
        }
    }
}

fn tell_start(answer: Result<(), Refusal>) {
    tell_answer(answer);
    end_line();
}

// The node whose record is spoiled: two nodes of stakes 6 and 4.
fn begin(rec: &mut [u64]) {
    say(b"start");
    tell_start(start(rec, &[6, 4], Node(0), 1));
}

// A fresh node of so many stakes of 1, told as a node of two with total 2: nothing but the number of places is wrong.
fn as_two(rec: &mut [u64], stakes: &[u64]) {
    let _ = start(rec, stakes, Node(0), 1);
    put_word(rec, 0, 2);
    put_word(rec, 1, 2);
    if 2 < stakes.len() {
        put_word(rec, 10, 0);
    }
}

// A record of a wrong length: a word more or less; a place more or less than the count says.
fn lengths() {
    let mut short = [0u64; 1250];
    let other = [0u64; 1250];
    say(b"1250 words");
    ask(&mut short, &other);
    let mut long = [0u64; 1252];
    let another = [0u64; 1252];
    say(b"1252 words");
    ask(&mut long, &another);
    let one = [1u64; 1];
    let mut single = [0u64; 1131];
    let mut same = [0u64; 1131];
    as_two(&mut single, &one);
    as_two(&mut same, &one);
    say(b"two nodes on one place");
    ask(&mut single, &same);
    let three = [1u64; 3];
    let mut triple = [0u64; 1371];
    let mut again = [0u64; 1371];
    as_two(&mut triple, &three);
    as_two(&mut again, &three);
    say(b"two nodes on three places");
    ask(&mut triple, &again);
}

// Start: 17 for a length that the number of stakes does not ask for, then 1.
fn starts() {
    let mut none = [0u64; 1011];
    let mut two = [0u64; 1251];
    let mut small = [0u64; 8691];
    let mut large = [0u64; 22513];
    let mut most = [0u64; 260473];
    let stakes = [1u64; 2049];
    say(b"no stakes on no place");
    tell_start(start(&mut none, &stakes[..0], Node(0), 1));
    say(b"no stakes on two places");
    tell_start(start(&mut two, &stakes[..0], Node(0), 1));
    say(b"one stake and genesis 0 on two places");
    tell_start(start(&mut two, &stakes[..1], Node(0), 0));
    say(b"two stakes and genesis 0 on two places");
    tell_start(start(&mut two, &stakes[..2], Node(0), 0));
    say(b"three stakes on two places");
    tell_start(start(&mut two, &stakes[..3], Node(0), 1));
    say(b"64 stakes on 64 places");
    tell_start(start(&mut small, &stakes[..64], Node(63), 1));
    say(b"65 stakes on 64 places");
    tell_start(start(&mut small, &stakes[..65], Node(0), 1));
    say(b"65 stakes on 65 places");
    tell_start(start(&mut large, &stakes[..65], Node(64), 1));
    say(b"2048 stakes on 2048 places");
    tell_start(start(&mut most, &stakes[..2048], Node(2047), 1));
    say(b"2047 stakes on 2048 places");
    tell_start(start(&mut most, &stakes[..2047], Node(0), 1));
    say(b"2049 stakes on 2048 places");
    tell_start(start(&mut most, &stakes, Node(0), 1));
}

// A watcher's start, likewise.
fn watched_starts() {
    let mut two = [0u64; 1251];
    let mut most = [0u64; 260473];
    let stakes = [1u64; 2049];
    say(b"a watcher of two stakes on two places");
    tell_start(watch(&mut two, &stakes[..2], 1));
    say(b"a watcher of two stakes and genesis 0 on two places");
    tell_start(watch(&mut two, &stakes[..2], 0));
    say(b"a watcher of no stakes and genesis 0 on two places");
    tell_start(watch(&mut two, &stakes[..0], 0));
    say(b"a watcher of 2048 stakes on 2048 places");
    tell_start(watch(&mut most, &stakes[..2048], 1));
    say(b"a watcher of 2049 stakes on 2048 places");
    tell_start(watch(&mut most, &stakes, 1));
}

// The kinds of so many records of an outbox.
fn tell_kinds(outbox: &[u64], many: usize) {
    let (records, _) = outbox.as_chunks::<3>();
    let told = many.min(records.len());
    for [kind, ..] in &records[..told] {
        number(*kind);
    }
}

// A look at the record with another own number: its number, and the kinds of what it tells.
fn look_as(sound: &[u64], own: Node) {
    let mut rec = [0u64; RECORD_WORDS];
    let mut outbox = [0u64; 480];
    copy_words(sound, &mut rec);
    put_word(&mut rec, 2, own.0 as u64);
    say(b"a look with own number");
    number(own.0 as u64);
    say(b":");
    let answer = step(&mut rec, &mut outbox, Input::Look);
    tell_answer(answer);
    if let Ok(many) = answer {
        tell_kinds(&outbox, many);
    }
    end_line();
}

fn main() {
    let mut sound = [0u64; RECORD_WORDS];
    let mut buffer = [0u8; 65536];
    begin(&mut sound);
    let n = io::read_full(0, &mut buffer);
    obey_lines(&buffer[..n], &mut sound);
    look_as(&sound, Node(0));
    look_as(&sound, Node(2));
    look_as(&sound, Node(3));
    lengths();
    starts();
    watched_starts();
}
