// The face: every public operation with numbers and lent memory alone, as quointrowel_c gives them to a host in C. Each answers its
// number on the panel and puts the values beside it into lent places; the definitions of the paper's numbers say which.
#![tactic(auto)]

ghost use Rattle.std.specs.Prelude.{◌≡◌, length};
ghost use Rattle.rulebook.specs.Weights.{places_for};
ghost use Rattle.rulebook.specs.Checker.{check_certificate, check_proof};
ghost use Rattle.rulebook.specs.Messages.{vote_of, read_vote, write_vote};
ghost use Rattle.rulebook.specs.WellFormed.{outbox_words};
ghost use Rattle.record.specs.Layout.{record_words};
ghost use Rattle.writers.specs.Writing.{certificate_on, proof_on};
ghost use Rattle.rulebook.specs.declared.Input.TheVariants as input;
ghost use Rattle.cards.specs.Asked.{card_on};
ghost use Rattle.announcing.specs.Asked.{block_of, announced_on};
ghost use Rattle.readers.specs.Asked.{final_on, armed_on, votes_on, blocks_on, marks_on, head_on};
ghost use Rattle.readers.specs.Weighed.{weights_on};
ghost use Rattle.texts.specs.Texts.{text_on};
ghost use Rattle.pieces.specs.State.{state_words, front_bytes};
ghost use Rattle.kept_lines.specs.Lent.{certificates_on};
ghost use Rattle.standing.specs.Asked.{stands_on};
ghost use Rattle.vouching.specs.Asked.{vouched_on};
ghost use Rattle.vouched_packets.specs.Asked.{packet_on};
ghost use Rattle.same_parents.specs.Parents.{parents_on};
ghost use Rattle.answers.specs.Face.{version, vote_input, block_input, timeout_input, Started, Watched, Stepped, Taken, Trayed, Wrote, MessageRead, CardRead, FinalRead, ArmedRead, SplitRead, AnnounceRead, VotesRead, BlocksRead, MarksRead, HeadRead, WeightsRead, Checked, Compared, LinesRead, CertificatesRead, Pieced, Ended};
ghost use Rattle.vouched_packets.specs.Split.{split_on};

use announcing::may_announce;
use answers::{
    card_values, cell_values, check_missing, check_values, differ_number, differ_value,
    head_values, kept_values, list_number, list_value, mark_values, number_of, vote_values,
    weight_values, yes_value,
};
use cards::read_card;
use checker::{check_certificate, check_proof};
use differences::differ;
use inputs::{block_input, timeout_input, vote_input, vote_of};
use kept_lines::list_certificates;
use messages::{read_vote, write_vote};
use node::step;
use pieces::{end, front_bytes, node_count, piece, state_words};
use readers::{
    read_armed, read_blocks, read_final, read_head, read_marks, read_votes, read_weights,
};
use record::record_words;
use rulebook::{Block, Input, Node, Slot};
use same_parents::same_parents;
use standing::own_votes_stand;
use starts::{start, watch};
use taking::take;
use texts::refusal_text;
use trays::tray;
use vouched_packets::{split_proof, vouched_packet};
use vouching::vouched;
use writers::{write_certificate, write_proof};

// The version of the library that is linked.
pub fn qr_version() -> u64
    ensures { result ≡ version }
{
    1
}

// How many words the record of a node has, by the number of stakes.
pub fn qr_record_words(count: usize) -> usize
    ensures { result ≡ record_words (places_for count) }
{
    record_words(count)
}

// How many words an outbox has to have.
pub fn qr_outbox_words() -> usize
    ensures { result ≡ outbox_words }
{
    480
}

// Makes the record's words a fresh node.
#[tactic(auto, unfolding(rulebook::specs::PaperNumbers::start_panel))]
pub fn qr_start(rec: &mut [u64], stakes: &[u64], own: usize, genesis: u64) -> u64
    ensures { Started rec.old stakes.now own genesis result rec.new }
{
    number_of(start(rec, stakes, Node(own), genesis))
}

// Makes the record's words a fresh watcher, a node that has no own number and never votes.
#[tactic(auto, unfolding(rulebook::specs::PaperNumbers::start_panel))]
pub fn qr_watch(rec: &mut [u64], stakes: &[u64], genesis: u64) -> u64
    ensures { Watched rec.old stakes.now genesis result rec.new }
{
    number_of(watch(rec, stakes, genesis))
}

// Gives the node another node's vote.
#[tactic(auto, unfolding(rulebook::specs::PaperNumbers::step_panel))]
pub fn qr_vote(
    rec: &mut [u64],
    outbox: &mut [u64],
    made: &mut usize,
    kind: u64,
    node: usize,
    slot: usize,
    block: u64,
) -> u64
    ensures { Stepped rec.old outbox.old (vote_input kind node slot block) result made.new rec.new outbox.new }
{
    let a = step(rec, outbox, vote_input(kind, Node(node), Slot(slot), block));
    *made = a.unwrap_or(0);
    number_of(a)
}

// Announces a block with its parent to the node.
#[tactic(auto, unfolding(rulebook::specs::PaperNumbers::step_panel))]
pub fn qr_block(
    rec: &mut [u64],
    outbox: &mut [u64],
    made: &mut usize,
    slot: usize,
    number: u64,
    parentslot: usize,
    parent: u64,
) -> u64
    ensures { Stepped rec.old outbox.old (block_input slot number parentslot parent) result made.new rec.new outbox.new }
{
    let a = step(
        rec,
        outbox,
        block_input(Slot(slot), number, Slot(parentslot), parent),
    );
    *made = a.unwrap_or(0);
    number_of(a)
}

// Tells the node that a slot's time is out.
#[tactic(auto, unfolding(rulebook::specs::PaperNumbers::step_panel))]
pub fn qr_timeout(rec: &mut [u64], outbox: &mut [u64], made: &mut usize, slot: usize) -> u64
    ensures { Stepped rec.old outbox.old (timeout_input slot) result made.new rec.new outbox.new }
{
    let a = step(rec, outbox, timeout_input(Slot(slot)));
    *made = a.unwrap_or(0);
    number_of(a)
}

// Has the node run its rules and nothing else.
#[tactic(auto, unfolding(rulebook::specs::PaperNumbers::step_panel))]
pub fn qr_look(rec: &mut [u64], outbox: &mut [u64], made: &mut usize) -> u64
    ensures { Stepped rec.old outbox.old input.Look result made.new rec.new outbox.new }
{
    let a = step(rec, outbox, Input::Look);
    *made = a.unwrap_or(0);
    number_of(a)
}

// Gives the node a certificate that another node wrote.
#[tactic(auto, unfolding(rulebook::specs::PaperNumbers::step_panel))]
pub fn qr_take(rec: &mut [u64], outbox: &mut [u64], made: &mut usize, packet: &[u8]) -> u64
    ensures { Taken rec.old outbox.old packet.now result made.new rec.new outbox.new }
{
    let a = take(rec, outbox, packet);
    *made = a.unwrap_or(0);
    number_of(a)
}

// Gives the node a run of other nodes' votes, four words each; one number for each vote from the answer buffer's front.
#[tactic(auto, unfolding(rulebook::specs::PaperNumbers::step_panel))]
pub fn qr_tray(
    rec: &mut [u64],
    outbox: &mut [u64],
    made: &mut usize,
    votes: &[u64],
    answers: &mut [u64],
) -> u64
    ensures { Trayed rec.old outbox.old votes.now answers.old result made.new rec.new outbox.new answers.new }
{
    let a = tray(rec, outbox, votes, answers);
    *made = a.unwrap_or(0);
    number_of(a)
}

// Writes a certificate of a kind, by its number in the record's table, for a slot and a block to the buffer's front.
#[tactic(auto, unfolding(rulebook::specs::PaperNumbers::write_panel))]
pub fn qr_write_certificate(
    rec: &[u64],
    buffer: &mut [u8],
    written: &mut usize,
    kind: u64,
    slot: usize,
    block: u64,
) -> u64
    ensures { Wrote (certificate_on rec.now (length buffer.old) kind slot block) buffer.old result written.new buffer.new }
{
    let a = write_certificate(rec, buffer, kind, Slot(slot), block);
    *written = a.unwrap_or(0);
    number_of(a)
}

// Writes a finality proof for a slot and a block to the buffer's front.
#[tactic(auto, unfolding(rulebook::specs::PaperNumbers::write_panel))]
pub fn qr_write_proof(
    rec: &[u64],
    buffer: &mut [u8],
    written: &mut usize,
    slot: usize,
    block: u64,
) -> u64
    ensures { Wrote (proof_on rec.now (length buffer.old) slot block) buffer.old result written.new buffer.new }
{
    let a = write_proof(rec, buffer, Slot(slot), block);
    *written = a.unwrap_or(0);
    number_of(a)
}

// Reads a slot's tally card: its five words.
#[tactic(auto, unfolding(cards::specs::Asked::card_panel))]
pub fn qr_card(rec: &[u64], slot: usize, values: &mut [u64; 5]) -> u64
    ensures { CardRead (card_on rec.now slot) result values.new }
{
    let a = read_card(rec, Slot(slot));
    *values = card_values(a);
    number_of(a)
}

// Reads a slot's final block.
#[tactic(auto, unfolding(readers::specs::Asked::final_panel))]
pub fn qr_final_block(rec: &[u64], slot: usize, block: &mut u64) -> u64
    ensures { FinalRead (final_on rec.now slot) result block.new }
{
    let a = read_final(rec, Slot(slot));
    *block = a.unwrap_or(0);
    number_of(a)
}

// Reads whether a slot's window is armed: 1 or 0.
#[tactic(auto, unfolding(readers::specs::Asked::armed_panel))]
pub fn qr_is_armed(rec: &[u64], slot: usize, armed: &mut u64) -> u64
    ensures { ArmedRead (armed_on rec.now slot) result armed.new }
{
    let a = read_armed(rec, Slot(slot));
    *armed = yes_value(a);
    number_of(a)
}

// Reads a node's stored votes in a slot: the seven words of its cell.
#[tactic(auto, unfolding(readers::specs::Asked::votes_panel))]
pub fn qr_kept_votes(rec: &[u64], slot: usize, node: usize, values: &mut [u64; 7]) -> u64
    ensures { VotesRead (votes_on rec.now slot node) result values.new }
{
    let a = read_votes(rec, Slot(slot), Node(node));
    *values = a.map_or([0; 7], cell_values);
    number_of(a)
}

// Asks where the first certificate of a finality proof ends.
#[tactic(auto, unfolding(vouched_packets::specs::Split::split_panel))]
pub fn qr_split_proof(rec: &[u64], packet: &[u8], first: &mut usize) -> u64
    ensures { SplitRead (split_on rec.now packet.now) result first.new }
{
    let a = split_proof(rec, packet);
    *first = a.unwrap_or(0);
    number_of(a)
}

// Asks whether announcing a block now is right, by the policy for blocks: 1 or 0.
#[tactic(auto, unfolding(announcing::specs::Asked::announce_panel))]
pub fn qr_may_announce(
    rec: &[u64],
    slot: usize,
    number: u64,
    parentslot: usize,
    parent: u64,
    may: &mut u64,
) -> u64
    ensures { AnnounceRead (announced_on rec.now slot (block_of number parentslot parent)) result may.new }
{
    let b = Block {
        number,
        parentslot: Slot(parentslot),
        parent,
    };
    let a = may_announce(rec, Slot(slot), b);
    *may = yes_value(a);
    number_of(a)
}

// Reads a slot's kept blocks: three words for each of its four places.
#[tactic(auto, unfolding(readers::specs::Asked::blocks_panel))]
pub fn qr_kept_blocks(rec: &[u64], slot: usize, values: &mut [u64; 12]) -> u64
    ensures { BlocksRead (blocks_on rec.now slot) result values.new }
{
    let a = read_blocks(rec, Slot(slot));
    *values = a.map_or([0; 12], kept_values);
    number_of(a)
}

// Reads a slot's marks: timed out, and another final block.
#[tactic(auto, unfolding(readers::specs::Asked::marks_panel))]
pub fn qr_slot_marks(rec: &[u64], slot: usize, values: &mut [u64; 2]) -> u64
    ensures { MarksRead (marks_on rec.now slot) result values.new }
{
    let a = read_marks(rec, Slot(slot));
    *values = a.map_or([0; 2], mark_values);
    number_of(a)
}

// Reads whose record it is and of which ring: the four words of its head.
#[tactic(auto, unfolding(readers::specs::Asked::head_panel))]
pub fn qr_head(rec: &[u64], values: &mut [u64; 4]) -> u64
    ensures { HeadRead (head_on rec.now) result values.new }
{
    let a = read_head(rec);
    *values = head_values(a);
    number_of(a)
}

// Lists the certificates that a slot keeps from the list's front, five words a line.
pub fn qr_kept_certificates(rec: &[u64], slot: usize, list: &mut [u64], beside: &mut usize) -> u64
    ensures { CertificatesRead (certificates_on rec.now slot (length list.old)) list.old result beside.new list.new }
{
    let a = list_certificates(rec, Slot(slot), list);
    *beside = list_value(a);
    list_number(a)
}

// Reads what a slot's stored votes weigh for a block: four weights.
#[tactic(auto, unfolding(readers::specs::Weighed::weights_panel))]
pub fn qr_block_weights(rec: &[u64], slot: usize, block: u64, values: &mut [u64; 4]) -> u64
    ensures { WeightsRead (weights_on rec.now slot block) result values.new }
{
    let a = read_weights(rec, Slot(slot), block);
    *values = a.map_or([0; 4], weight_values);
    number_of(a)
}

// Checks a packet that is to be one certificate.
#[tactic(auto, unfolding(rulebook::specs::PaperNumbers::check_number))]
pub fn qr_check_certificate(
    stakes: &[u64],
    packet: &[u8],
    values: &mut [u64; 5],
    missing: &mut u64,
) -> u64
    ensures { Checked (length stakes.now) (check_certificate stakes.now packet.now) result values.new missing.new }
{
    let a = check_certificate(stakes, packet);
    *values = check_values(stakes.len(), a);
    *missing = check_missing(a).0;
    number_of(a)
}

// Checks a packet that is to be a finality proof.
#[tactic(auto, unfolding(rulebook::specs::PaperNumbers::check_number))]
pub fn qr_check_proof(
    stakes: &[u64],
    packet: &[u8],
    values: &mut [u64; 5],
    missing: &mut u64,
) -> u64
    ensures { Checked (length stakes.now) (check_proof stakes.now packet.now) result values.new missing.new }
{
    let a = check_proof(stakes, packet);
    *values = check_values(stakes.len(), a);
    *missing = check_missing(a).0;
    number_of(a)
}

// How many words the state of a proof in pieces has.
pub fn qr_pieces_words() -> usize
    ensures { result ≡ state_words }
{
    state_words()
}

// How many bytes it has beside them.
pub fn qr_pieces_bytes() -> usize
    ensures { result ≡ front_bytes }
{
    front_bytes()
}

// Takes a piece of a finality proof; the table is that of the first piece.
#[tactic(auto, unfolding(pieces::specs::Pieces::piece_panel))]
pub fn qr_piece(words: &mut [u64], front: &mut [u8], stakes: &[u64], bytes: &[u8]) -> u64
    ensures { Pieced words.old front.old stakes.now bytes.now result words.new front.new }
{
    number_of(piece(words, front, stakes, bytes))
}

// Ends a finality proof that came in pieces: what the whole packet is answered.
#[tactic(auto, unfolding(rulebook::specs::PaperNumbers::check_number))]
pub fn qr_end(words: &mut [u64], front: &mut [u8], values: &mut [u64; 5], missing: &mut u64) -> u64
    ensures { Ended words.old front.old result values.new missing.new words.new front.new }
{
    let count = node_count(words);
    let a = end(words, front);
    *values = check_values(count, a);
    *missing = check_missing(a).0;
    number_of(a)
}

// Reads a vote message: the vote's four numbers.
#[tactic(auto, unfolding(rulebook::specs::PaperNumbers::read_panel))]
pub fn qr_read_vote(count: usize, message: &[u8], values: &mut [u64; 4]) -> u64
    ensures { MessageRead (read_vote count message.now) result values.new }
{
    let a = read_vote(count, message);
    *values = a.map_or([0; 4], vote_values);
    number_of(a)
}

// Writes a vote message to the buffer's front.
#[tactic(auto, unfolding(rulebook::specs::PaperNumbers::write_panel))]
pub fn qr_write_vote(
    buffer: &mut [u8],
    written: &mut usize,
    count: usize,
    kind: u64,
    node: usize,
    slot: usize,
    block: u64,
) -> u64
    ensures { Wrote (write_vote count (length buffer.old) (vote_of kind node slot block)) buffer.old result written.new buffer.new }
{
    let v = vote_of(kind, Node(node), Slot(slot), block);
    let a = write_vote(count, v, buffer);
    *written = a.unwrap_or(0);
    number_of(a)
}

// Lists the stored votes in which two records differ from the list's front, five words a line.
pub fn qr_differ(first: &[u64], second: &[u64], list: &mut [u64], beside: &mut usize) -> u64
    ensures { Compared first.now second.now list.old result beside.new list.new }
{
    let a = differ(first, second, list);
    *beside = differ_value(a);
    differ_number(a)
}

// Lists the own votes of a record that do not stand on what the record holds from the list's front, five words a line.
pub fn qr_stands(rec: &[u64], list: &mut [u64], beside: &mut usize) -> u64
    ensures { LinesRead (stands_on rec.now (length list.old)) list.old result beside.new list.new }
{
    let a = own_votes_stand(rec, list);
    *beside = list_value(a);
    list_number(a)
}

// Lists the votes that the first record counts in the name of the second's firm and the second record lacks from the list's front, five
// words a line.
pub fn qr_vouched(first: &[u64], second: &[u64], list: &mut [u64], beside: &mut usize) -> u64
    ensures { LinesRead (vouched_on first.now second.now (length list.old)) list.old result beside.new list.new }
{
    let a = vouched(first, second, list);
    *beside = list_value(a);
    list_number(a)
}

// Lists the votes that a packet counts the record's firm for and the record lacks from the list's front, five words a line.
pub fn qr_vouched_packet(rec: &[u64], packet: &[u8], list: &mut [u64], beside: &mut usize) -> u64
    ensures { LinesRead (packet_on rec.now packet.now (length list.old)) list.old result beside.new list.new }
{
    let a = vouched_packet(rec, packet, list);
    *beside = list_value(a);
    list_number(a)
}

// Lists the blocks that two records keep with two parents from the list's front, five words a line, two lines for each.
pub fn qr_same_parents(first: &[u64], second: &[u64], list: &mut [u64], beside: &mut usize) -> u64
    ensures { LinesRead (parents_on first.now second.now (length list.old)) list.old result beside.new list.new }
{
    let a = same_parents(first, second, list);
    *beside = list_value(a);
    list_number(a)
}

// Writes what a number means, in a sentence, to the buffer's front.
#[tactic(auto, unfolding(rulebook::specs::PaperNumbers::write_panel))]
pub fn qr_refusal_text(buffer: &mut [u8], written: &mut usize, number: u64) -> u64
    ensures { Wrote (text_on (length buffer.old) number) buffer.old result written.new buffer.new }
{
    let a = refusal_text(buffer, number);
    *written = a.unwrap_or(0);
    number_of(a)
}
