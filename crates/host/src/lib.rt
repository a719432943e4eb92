// A host in Rattle. It calls every function of the header and every public operation, and its contracts say what is promised of them: the calls that a
// life is made of, and what is written, read, checked, compared and taken in pieces, in the words in which the promises speak of it, by name and
// argument. Where a contract of the face drifts, the host is refused. Then it lives: what its calls make together.
#![tactic(auto)]

ghost use Rattle.std.specs.Prelude.{◌≡◌, length};
ghost use Rattle.rulebook.specs.declared.Input.TheVariants as input;
ghost use Rattle.rulebook.specs.Checker.{check_certificate, check_proof};
ghost use Rattle.rulebook.specs.Messages.{vote_of, read_vote, write_vote};
ghost use Rattle.rulebook.specs.PaperNumbers.{start_panel, read_panel};
ghost use Rattle.rulebook.specs.Weights.{places_for};
ghost use Rattle.rulebook.specs.WellFormed.{outbox_words};
ghost use Rattle.record.specs.Layout.{record_words};
ghost use Rattle.writers.specs.Writing.{certificate_on, proof_on};
ghost use Rattle.cards.specs.Asked.{card_on, card_panel};
ghost use Rattle.announcing.specs.Asked.{block_of, announced_on, announce_panel};
ghost use Rattle.readers.specs.Asked.{final_on, final_panel, armed_on, armed_panel, votes_on, votes_panel, blocks_on, blocks_panel, marks_on, marks_panel, head_on, head_panel};
ghost use Rattle.readers.specs.Weighed.{weights_on, weights_panel};
ghost use Rattle.texts.specs.Texts.{text_on};
ghost use Rattle.pieces.specs.State.{state_words, front_bytes};
ghost use Rattle.kept_lines.specs.Lent.{certificates_on};
ghost use Rattle.standing.specs.Asked.{stands_on};
ghost use Rattle.vouching.specs.Asked.{vouched_on};
ghost use Rattle.vouched_packets.specs.Asked.{packet_on};
ghost use Rattle.same_parents.specs.Parents.{parents_on};
ghost use Rattle.inputs.specs.Inputs.{vote_input, block_input, timeout_input};
ghost use Rattle.answers.specs.Face.{version, Started, Watched, Wrote, MessageRead, CardRead, FinalRead, ArmedRead, SplitRead, AnnounceRead, VotesRead, BlocksRead, MarksRead, HeadRead, WeightsRead, Checked, Compared, LinesRead, CertificatesRead, Pieced, Ended};
ghost use Rattle.calls.specs.Operation.{one_input, a_tray, a_packet};
ghost use Rattle.calls.specs.Life.{Met, MetWith, GoesOn, Stays, Life, Watch, begun};
ghost use Rattle.host.specs.Answered.{WroteWith, CheckedWith, ReadWith, ReadOneWith, CertificatesWith, ComparedWith, LinesWith, PiecedWith, EndedWith};
ghost use Rattle.vouched_packets.specs.Split.{split_on, split_panel};

use announcing::may_announce;
use cards::read_card;
use checker::{check_certificate, check_proof};
use differences::{DifferRefusal, differ};
use inquest_lines::ListRefusal;
use kept_lines::list_certificates;
use messages::{read_vote, write_vote};
use node::step;
use pieces::{end, piece};
use quointrowel::{
    qr_block, qr_block_weights, qr_card, qr_check_certificate, qr_check_proof, qr_differ, qr_end,
    qr_final_block, qr_head, qr_is_armed, qr_kept_blocks, qr_kept_certificates, qr_kept_votes,
    qr_look, qr_may_announce, qr_outbox_words, qr_piece, qr_pieces_bytes, qr_pieces_words,
    qr_read_vote, qr_record_words, qr_refusal_text, qr_same_parents, qr_slot_marks, qr_split_proof,
    qr_stands, qr_start, qr_take, qr_timeout, qr_tray, qr_version, qr_vote, qr_vouched,
    qr_vouched_packet, qr_watch, qr_write_certificate, qr_write_proof, qr_write_vote,
};
use readers::{
    BlockWeights, KeptBlocks, RecordHead, SlotMarks, read_armed, read_blocks, read_final,
    read_head, read_marks, read_votes, read_weights,
};
use record::record_words;
use rulebook::{Accepted, Block, Cell, Input, Node, Refusal, Slot, Tally, Vote};
use same_parents::same_parents;
use standing::own_votes_stand;
use starts::{start, watch};
use taking::take;
use texts::refusal_text;
use trays::tray;
use vouched_packets::{split_proof, vouched_packet};
use vouching::vouched;
use writers::{write_certificate, write_proof};

// ---- the functions of the header: what a life is made of

// Calls qr_start.
pub fn face_start(rec: &mut [u64], stakes: &[u64], own: usize, genesis: u64) -> u64
    ensures { Started rec.old stakes.now own genesis result rec.new }
{
    qr_start(rec, stakes, own, genesis)
}

// Calls qr_watch.
pub fn face_watch(rec: &mut [u64], stakes: &[u64], genesis: u64) -> u64
    ensures { Watched rec.old stakes.now genesis result rec.new }
{
    qr_watch(rec, stakes, genesis)
}

// Calls qr_vote.
pub fn face_vote(
    rec: &mut [u64],
    outbox: &mut [u64],
    made: &mut usize,
    kind: u64,
    node: usize,
    slot: usize,
    block: u64,
) -> u64
    ensures { Met (one_input (vote_input kind node slot block)) rec.old outbox.old result made.new rec.new outbox.new }
{
    qr_vote(rec, outbox, made, kind, node, slot, block)
}

// Calls qr_block.
pub fn face_block(
    rec: &mut [u64],
    outbox: &mut [u64],
    made: &mut usize,
    slot: usize,
    number: u64,
    parentslot: usize,
    parent: u64,
) -> u64
    ensures { Met (one_input (block_input slot number parentslot parent)) rec.old outbox.old result made.new rec.new outbox.new }
{
    qr_block(rec, outbox, made, slot, number, parentslot, parent)
}

// Calls qr_timeout.
pub fn face_timeout(rec: &mut [u64], outbox: &mut [u64], made: &mut usize, slot: usize) -> u64
    ensures { Met (one_input (timeout_input slot)) rec.old outbox.old result made.new rec.new outbox.new }
{
    qr_timeout(rec, outbox, made, slot)
}

// Calls qr_look.
pub fn face_look(rec: &mut [u64], outbox: &mut [u64], made: &mut usize) -> u64
    ensures { Met (one_input input.Look) rec.old outbox.old result made.new rec.new outbox.new }
{
    qr_look(rec, outbox, made)
}

// Calls qr_take.
pub fn face_take(rec: &mut [u64], outbox: &mut [u64], made: &mut usize, packet: &[u8]) -> u64
    ensures { Met (a_packet packet.now) rec.old outbox.old result made.new rec.new outbox.new }
{
    qr_take(rec, outbox, made, packet)
}

// Calls qr_tray.
pub fn face_tray(
    rec: &mut [u64],
    outbox: &mut [u64],
    made: &mut usize,
    votes: &[u64],
    answers: &mut [u64],
) -> u64
    ensures { Met (a_tray votes.now answers.old answers.new) rec.old outbox.old result made.new rec.new outbox.new }
{
    qr_tray(rec, outbox, made, votes, answers)
}

// ---- what is written, read and checked

// Calls qr_write_certificate.
pub fn face_write_certificate(
    rec: &[u64],
    buffer: &mut [u8],
    written: &mut usize,
    kind: u64,
    slot: usize,
    block: u64,
) -> u64
    ensures { Wrote (certificate_on rec.now (length buffer.old) kind slot block) buffer.old result written.new buffer.new }
{
    qr_write_certificate(rec, buffer, written, kind, slot, block)
}

// Calls qr_write_proof.
pub fn face_write_proof(
    rec: &[u64],
    buffer: &mut [u8],
    written: &mut usize,
    slot: usize,
    block: u64,
) -> u64
    ensures { Wrote (proof_on rec.now (length buffer.old) slot block) buffer.old result written.new buffer.new }
{
    qr_write_proof(rec, buffer, written, slot, block)
}

// Calls qr_card.
pub fn face_card(rec: &[u64], slot: usize, values: &mut [u64; 5]) -> u64
    ensures { CardRead (card_on rec.now slot) result values.new }
{
    qr_card(rec, slot, values)
}

// Calls qr_final_block.
pub fn face_final_block(rec: &[u64], slot: usize, block: &mut u64) -> u64
    ensures { FinalRead (final_on rec.now slot) result block.new }
{
    qr_final_block(rec, slot, block)
}

// Calls qr_split_proof.
pub fn face_split_proof(rec: &[u64], packet: &[u8], first: &mut usize) -> u64
    ensures { SplitRead (split_on rec.now packet.now) result first.new }
{
    qr_split_proof(rec, packet, first)
}

// Calls qr_may_announce.
pub fn face_may_announce(
    rec: &[u64],
    slot: usize,
    number: u64,
    parentslot: usize,
    parent: u64,
    may: &mut u64,
) -> u64
    ensures { AnnounceRead (announced_on rec.now slot (block_of number parentslot parent)) result may.new }
{
    qr_may_announce(rec, slot, number, parentslot, parent, may)
}

// Calls qr_is_armed.
pub fn face_is_armed(rec: &[u64], slot: usize, armed: &mut u64) -> u64
    ensures { ArmedRead (armed_on rec.now slot) result armed.new }
{
    qr_is_armed(rec, slot, armed)
}

// Calls qr_kept_votes.
pub fn face_kept_votes(rec: &[u64], slot: usize, node: usize, values: &mut [u64; 7]) -> u64
    ensures { VotesRead (votes_on rec.now slot node) result values.new }
{
    qr_kept_votes(rec, slot, node, values)
}

// Calls qr_kept_blocks.
pub fn face_kept_blocks(rec: &[u64], slot: usize, values: &mut [u64; 12]) -> u64
    ensures { BlocksRead (blocks_on rec.now slot) result values.new }
{
    qr_kept_blocks(rec, slot, values)
}

// Calls qr_slot_marks.
pub fn face_slot_marks(rec: &[u64], slot: usize, values: &mut [u64; 2]) -> u64
    ensures { MarksRead (marks_on rec.now slot) result values.new }
{
    qr_slot_marks(rec, slot, values)
}

// Calls qr_head.
pub fn face_head(rec: &[u64], values: &mut [u64; 4]) -> u64
    ensures { HeadRead (head_on rec.now) result values.new }
{
    qr_head(rec, values)
}

// Calls qr_kept_certificates.
pub fn face_kept_certificates(rec: &[u64], slot: usize, list: &mut [u64], beside: &mut usize) -> u64
    ensures { CertificatesRead (certificates_on rec.now slot (length list.old)) list.old result beside.new list.new }
{
    qr_kept_certificates(rec, slot, list, beside)
}

// Calls qr_block_weights.
pub fn face_block_weights(rec: &[u64], slot: usize, block: u64, values: &mut [u64; 4]) -> u64
    ensures { WeightsRead (weights_on rec.now slot block) result values.new }
{
    qr_block_weights(rec, slot, block, values)
}

// Calls qr_check_certificate.
pub fn face_check_certificate(
    stakes: &[u64],
    packet: &[u8],
    values: &mut [u64; 5],
    missing: &mut u64,
) -> u64
    ensures { Checked (length stakes.now) (check_certificate stakes.now packet.now) result values.new missing.new }
{
    qr_check_certificate(stakes, packet, values, missing)
}

// Calls qr_check_proof.
pub fn face_check_proof(
    stakes: &[u64],
    packet: &[u8],
    values: &mut [u64; 5],
    missing: &mut u64,
) -> u64
    ensures { Checked (length stakes.now) (check_proof stakes.now packet.now) result values.new missing.new }
{
    qr_check_proof(stakes, packet, values, missing)
}

// ---- proofs in pieces, vote messages, comparisons, texts, sizes

// Calls qr_piece.
pub fn face_piece(words: &mut [u64], front: &mut [u8], stakes: &[u64], bytes: &[u8]) -> u64
    ensures { Pieced words.old front.old stakes.now bytes.now result words.new front.new }
{
    qr_piece(words, front, stakes, bytes)
}

// Calls qr_end.
pub fn face_end(
    words: &mut [u64],
    front: &mut [u8],
    values: &mut [u64; 5],
    missing: &mut u64,
) -> u64
    ensures { Ended words.old front.old result values.new missing.new words.new front.new }
{
    qr_end(words, front, values, missing)
}

// Calls qr_read_vote.
pub fn face_read_vote(count: usize, message: &[u8], values: &mut [u64; 4]) -> u64
    ensures { MessageRead (read_vote count message.now) result values.new }
{
    qr_read_vote(count, message, values)
}

// Calls qr_write_vote.
pub fn face_write_vote(
    buffer: &mut [u8],
    written: &mut usize,
    count: usize,
    kind: u64,
    node: usize,
    slot: usize,
    block: u64,
) -> u64
    ensures { Wrote (write_vote count (length buffer.old) (vote_of kind node slot block)) buffer.old result written.new buffer.new }
{
    qr_write_vote(buffer, written, count, kind, node, slot, block)
}

// Calls qr_differ.
pub fn face_differ(first: &[u64], second: &[u64], list: &mut [u64], beside: &mut usize) -> u64
    ensures { Compared first.now second.now list.old result beside.new list.new }
{
    qr_differ(first, second, list, beside)
}

// Calls qr_stands.
pub fn face_stands(rec: &[u64], list: &mut [u64], beside: &mut usize) -> u64
    ensures { LinesRead (stands_on rec.now (length list.old)) list.old result beside.new list.new }
{
    qr_stands(rec, list, beside)
}

// Calls qr_vouched.
pub fn face_vouched(first: &[u64], second: &[u64], list: &mut [u64], beside: &mut usize) -> u64
    ensures { LinesRead (vouched_on first.now second.now (length list.old)) list.old result beside.new list.new }
{
    qr_vouched(first, second, list, beside)
}

// Calls qr_vouched_packet.
pub fn face_vouched_packet(rec: &[u64], packet: &[u8], list: &mut [u64], beside: &mut usize) -> u64
    ensures { LinesRead (packet_on rec.now packet.now (length list.old)) list.old result beside.new list.new }
{
    qr_vouched_packet(rec, packet, list, beside)
}

// Calls qr_same_parents.
pub fn face_same_parents(first: &[u64], second: &[u64], list: &mut [u64], beside: &mut usize) -> u64
    ensures { LinesRead (parents_on first.now second.now (length list.old)) list.old result beside.new list.new }
{
    qr_same_parents(first, second, list, beside)
}

// Calls qr_refusal_text.
pub fn face_refusal_text(buffer: &mut [u8], written: &mut usize, number: u64) -> u64
    ensures { Wrote (text_on (length buffer.old) number) buffer.old result written.new buffer.new }
{
    qr_refusal_text(buffer, written, number)
}

// Calls qr_version.
pub fn face_version() -> u64
    ensures { result ≡ version }
{
    qr_version()
}

// Calls qr_record_words.
pub fn face_record_words(count: usize) -> usize
    ensures { result ≡ record_words (places_for count) }
{
    qr_record_words(count)
}

// Calls qr_outbox_words.
pub fn face_outbox_words() -> usize
    ensures { result ≡ outbox_words }
{
    qr_outbox_words()
}

// Calls qr_pieces_words.
pub fn face_pieces_words() -> usize
    ensures { result ≡ state_words }
{
    qr_pieces_words()
}

// Calls qr_pieces_bytes.
pub fn face_pieces_bytes() -> usize
    ensures { result ≡ front_bytes }
{
    qr_pieces_bytes()
}

// ---- the public operations: what a life is made of

// Calls the public start.
pub fn plain_start(rec: &mut [u64], stakes: &[u64], own: Node, genesis: u64) -> Result<(), Refusal>
    ensures { Started rec.old stakes.now own.0 genesis (start_panel result).number rec.new }
{
    start(rec, stakes, own, genesis)
}

// Calls the public start of a watcher.
pub fn plain_watch(rec: &mut [u64], stakes: &[u64], genesis: u64) -> Result<(), Refusal>
    ensures { Watched rec.old stakes.now genesis (start_panel result).number rec.new }
{
    watch(rec, stakes, genesis)
}

// Calls the public step.
pub fn plain_step(rec: &mut [u64], outbox: &mut [u64], input: Input) -> Result<usize, Refusal>
    ensures { MetWith (one_input input) rec.old outbox.old result rec.new outbox.new }
{
    step(rec, outbox, input)
}

// Calls the public taking.
pub fn plain_take(rec: &mut [u64], outbox: &mut [u64], packet: &[u8]) -> Result<usize, Refusal>
    ensures { MetWith (a_packet packet.now) rec.old outbox.old result rec.new outbox.new }
{
    take(rec, outbox, packet)
}

// Calls the public tray.
pub fn plain_tray(
    rec: &mut [u64],
    outbox: &mut [u64],
    votes: &[u64],
    answers: &mut [u64],
) -> Result<usize, Refusal>
    ensures { MetWith (a_tray votes.now answers.old answers.new) rec.old outbox.old result rec.new outbox.new }
{
    tray(rec, outbox, votes, answers)
}

// ---- the public operations: what is written, read and checked

// Calls the public certificate writer.
pub fn plain_write_certificate(
    rec: &[u64],
    buffer: &mut [u8],
    kind: u64,
    slot: Slot,
    block: u64,
) -> Result<usize, Refusal>
    ensures { WroteWith (certificate_on rec.now (length buffer.old) kind slot.0 block) buffer.old result buffer.new }
{
    write_certificate(rec, buffer, kind, slot, block)
}

// Calls the public proof writer.
pub fn plain_write_proof(
    rec: &[u64],
    buffer: &mut [u8],
    slot: Slot,
    block: u64,
) -> Result<usize, Refusal>
    ensures { WroteWith (proof_on rec.now (length buffer.old) slot.0 block) buffer.old result buffer.new }
{
    write_proof(rec, buffer, slot, block)
}

// Calls the public check of a certificate.
pub fn plain_check_certificate(stakes: &[u64], packet: &[u8]) -> Result<Accepted, Refusal>
    ensures { CheckedWith (length stakes.now) (check_certificate stakes.now packet.now) result }
{
    check_certificate(stakes, packet)
}

// Calls the public check of a proof.
pub fn plain_check_proof(stakes: &[u64], packet: &[u8]) -> Result<Accepted, Refusal>
    ensures { CheckedWith (length stakes.now) (check_proof stakes.now packet.now) result }
{
    check_proof(stakes, packet)
}

// Calls the public reader of a card.
pub fn plain_read_card(rec: &[u64], slot: Slot) -> Result<Tally, Refusal>
    ensures { ReadWith card_panel (card_on rec.now slot.0) result }
{
    read_card(rec, slot)
}

// Calls the public reader of a final block.
pub fn plain_read_final(rec: &[u64], slot: Slot) -> Result<u64, Refusal>
    ensures { ReadOneWith final_panel (final_on rec.now slot.0) result }
{
    read_final(rec, slot)
}

// Calls the public question where a proof's first certificate ends.
pub fn plain_split_proof(rec: &[u64], packet: &[u8]) -> Result<usize, Refusal>
    ensures { ReadOneWith split_panel (split_on rec.now packet.now) result }
{
    split_proof(rec, packet)
}

// Calls the public question whether a block may be announced.
pub fn plain_may_announce(rec: &[u64], slot: Slot, b: Block) -> Result<bool, Refusal>
    ensures { ReadOneWith announce_panel (announced_on rec.now slot.0 b) result }
{
    may_announce(rec, slot, b)
}

// Calls the public reader of an armed window.
pub fn plain_read_armed(rec: &[u64], slot: Slot) -> Result<bool, Refusal>
    ensures { ReadOneWith armed_panel (armed_on rec.now slot.0) result }
{
    read_armed(rec, slot)
}

// Calls the public reader of stored votes.
pub fn plain_read_votes(rec: &[u64], slot: Slot, node: Node) -> Result<Cell, Refusal>
    ensures { ReadWith votes_panel (votes_on rec.now slot.0 node.0) result }
{
    read_votes(rec, slot, node)
}

// Calls the public reader of kept blocks.
pub fn plain_read_blocks(rec: &[u64], slot: Slot) -> Result<KeptBlocks, Refusal>
    ensures { ReadWith blocks_panel (blocks_on rec.now slot.0) result }
{
    read_blocks(rec, slot)
}

// Calls the public reader of marks.
pub fn plain_read_marks(rec: &[u64], slot: Slot) -> Result<SlotMarks, Refusal>
    ensures { ReadWith marks_panel (marks_on rec.now slot.0) result }
{
    read_marks(rec, slot)
}

// Calls the public reader of a record's head.
pub fn plain_read_head(rec: &[u64]) -> Result<RecordHead, Refusal>
    ensures { ReadWith head_panel (head_on rec.now) result }
{
    read_head(rec)
}

// Calls the public list of a slot's kept certificates.
pub fn plain_list_certificates(rec: &[u64], s: Slot, list: &mut [u64]) -> Result<usize, ListRefusal>
    ensures { CertificatesWith (certificates_on rec.now s.0 (length list.old)) list.old result list.new }
{
    list_certificates(rec, s, list)
}

// Calls the public reader of a block's weights.
pub fn plain_read_weights(rec: &[u64], s: Slot, b: u64) -> Result<BlockWeights, Refusal>
    ensures { ReadWith weights_panel (weights_on rec.now s.0 b) result }
{
    read_weights(rec, s, b)
}

// Calls the public operation that takes a piece.
pub fn plain_piece(
    words: &mut [u64],
    front: &mut [u8],
    stakes: &[u64],
    bytes: &[u8],
) -> Result<(), Refusal>
    ensures { PiecedWith words.old front.old stakes.now bytes.now result words.new front.new }
{
    piece(words, front, stakes, bytes)
}

// Calls the public operation that ends a proof in pieces.
pub fn plain_end(words: &mut [u64], front: &mut [u8]) -> Result<Accepted, Refusal>
    ensures { EndedWith words.old front.old result words.new front.new }
{
    end(words, front)
}

// Calls the public reader of vote messages.
pub fn plain_read_vote(count: usize, message: &[u8]) -> Result<Vote, Refusal>
    ensures { ReadWith read_panel (read_vote count message.now) result }
{
    read_vote(count, message)
}

// Calls the public writer of vote messages.
pub fn plain_write_vote(count: usize, vote: Vote, buffer: &mut [u8]) -> Result<usize, Refusal>
    ensures { WroteWith (write_vote count (length buffer.old) vote) buffer.old result buffer.new }
{
    write_vote(count, vote, buffer)
}

// Calls the public comparison.
pub fn plain_differ(one: &[u64], two: &[u64], list: &mut [u64]) -> Result<usize, DifferRefusal>
    ensures { ComparedWith one.now two.now list.old result list.new }
{
    differ(one, two, list)
}

// Calls the public test of own votes.
pub fn plain_stands(rec: &[u64], list: &mut [u64]) -> Result<usize, ListRefusal>
    ensures { LinesWith (stands_on rec.now (length list.old)) list.old result list.new }
{
    own_votes_stand(rec, list)
}

// Calls the public test of two records.
pub fn plain_vouched(one: &[u64], two: &[u64], list: &mut [u64]) -> Result<usize, ListRefusal>
    ensures { LinesWith (vouched_on one.now two.now (length list.old)) list.old result list.new }
{
    vouched(one, two, list)
}

// Calls the public test of a packet.
pub fn plain_vouched_packet(
    rec: &[u64],
    packet: &[u8],
    list: &mut [u64],
) -> Result<usize, ListRefusal>
    ensures { LinesWith (packet_on rec.now packet.now (length list.old)) list.old result list.new }
{
    vouched_packet(rec, packet, list)
}

// Calls the public test of parents.
pub fn plain_same_parents(one: &[u64], two: &[u64], list: &mut [u64]) -> Result<usize, ListRefusal>
    ensures { LinesWith (parents_on one.now two.now (length list.old)) list.old result list.new }
{
    same_parents(one, two, list)
}

// Calls the public writer of texts.
pub fn plain_refusal_text(buffer: &mut [u8], number: u64) -> Result<usize, Refusal>
    ensures { WroteWith (text_on (length buffer.old) number) buffer.old result buffer.new }
{
    refusal_text(buffer, number)
}

// Calls the public size of a record.
pub fn plain_record_words(count: usize) -> usize
    ensures { result ≡ record_words (places_for count) }
{
    record_words(count)
}

// ---- lives

// Calls qr_start: a life begins where it answers 0.
pub fn lives_from(rec: &mut [u64], stakes: &[u64], own: usize, genesis: u64) -> u64
    ensures { result ≡ 0 → Life stakes.now own genesis (begun rec.new) }
{
    qr_start(rec, stakes, own, genesis)
}

// Calls qr_watch: a watcher's life begins where it answers 0.
pub fn lives_watching(rec: &mut [u64], stakes: &[u64], genesis: u64) -> u64
    ensures { result ≡ 0 → Watch stakes.now genesis (begun rec.new) }
{
    qr_watch(rec, stakes, genesis)
}

// Calls qr_start on a record that lives: where it does not answer 0, every life on the words that it finds stays.
pub fn lives_through(rec: &mut [u64], stakes: &[u64], own: usize, genesis: u64) -> u64
    ensures { ¬ (result ≡ 0) → Stays rec.old rec.new }
{
    qr_start(rec, stakes, own, genesis)
}

// Calls qr_vote: every life on the words that it finds goes on, a watcher's too.
pub fn lives_on(
    rec: &mut [u64],
    outbox: &mut [u64],
    made: &mut usize,
    kind: u64,
    node: usize,
    slot: usize,
    block: u64,
) -> u64
    ensures { GoesOn (one_input (vote_input kind node slot block)) rec.old outbox.old result made.new rec.new outbox.new }
{
    qr_vote(rec, outbox, made, kind, node, slot, block)
}
