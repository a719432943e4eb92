// The exports: every function of the face under its own name and with its own clauses, for a host in C or Rust. Each calls the
// library's.
#![tactic(auto)]

ghost use Rattle.std.specs.Prelude.{◌≡◌, length};
ghost use Rattle.rulebook.specs.Weights.{places_for};
ghost use Rattle.rulebook.specs.Checker.{check_certificate, check_proof};
ghost use Rattle.rulebook.specs.Messages.{vote_of, read_vote, write_vote};
ghost use Rattle.rulebook.specs.WellFormed.{outbox_words};
ghost use Rattle.record.specs.Layout.{record_words};
ghost use Rattle.writers.specs.Writing.{certificate_on, proof_on};
ghost use Rattle.rulebook.specs.declared.Input.TheVariants as input;
ghost use Rattle.cards.specs.Asked.{card_on};
ghost use Rattle.announcing.specs.Asked.{block_of, announced_on};
ghost use Rattle.readers.specs.Asked.{final_on, armed_on, votes_on, blocks_on, marks_on, head_on};
ghost use Rattle.readers.specs.Weighed.{weights_on};
ghost use Rattle.texts.specs.Texts.{text_on};
ghost use Rattle.pieces.specs.State.{state_words, front_bytes};
ghost use Rattle.kept_lines.specs.Lent.{certificates_on};
ghost use Rattle.standing.specs.Asked.{stands_on};
ghost use Rattle.vouching.specs.Asked.{vouched_on};
ghost use Rattle.vouched_packets.specs.Asked.{packet_on};
ghost use Rattle.same_parents.specs.Parents.{parents_on};
ghost use Rattle.answers.specs.Face.{version, vote_input, block_input, timeout_input, Started, Watched, Stepped, Taken, Trayed, Wrote, MessageRead, CardRead, FinalRead, ArmedRead, SplitRead, AnnounceRead, VotesRead, BlocksRead, MarksRead, HeadRead, WeightsRead, Checked, Compared, LinesRead, CertificatesRead, Pieced, Ended};
ghost use Rattle.vouched_packets.specs.Split.{split_on};

// The version of the library that is linked.
#[unsafe(no_mangle)]
pub extern "C" fn qr_version() -> u64
    ensures { result ≡ version }
{
    quointrowel::qr_version()
}

// How many words the record of a node has, by the number of stakes.
#[unsafe(no_mangle)]
pub extern "C" fn qr_record_words(count: usize) -> usize
    ensures { result ≡ record_words (places_for count) }
{
    quointrowel::qr_record_words(count)
}

// How many words an outbox has to have.
#[unsafe(no_mangle)]
pub extern "C" fn qr_outbox_words() -> usize
    ensures { result ≡ outbox_words }
{
    quointrowel::qr_outbox_words()
}

// Makes the record's words a fresh node.
#[unsafe(no_mangle)]
pub extern "C" fn qr_start(rec: &mut [u64], stakes: &[u64], own: usize, genesis: u64) -> u64
    ensures { Started rec.old stakes.now own genesis result rec.new }
{
    quointrowel::qr_start(rec, stakes, own, genesis)
}

// Makes the record's words a fresh watcher, a node that has no own number and never votes.
#[unsafe(no_mangle)]
pub extern "C" fn qr_watch(rec: &mut [u64], stakes: &[u64], genesis: u64) -> u64
    ensures { Watched rec.old stakes.now genesis result rec.new }
{
    quointrowel::qr_watch(rec, stakes, genesis)
}

// Gives the node another node's vote.
#[unsafe(no_mangle)]
pub extern "C" fn qr_vote(
    rec: &mut [u64],
    outbox: &mut [u64],
    made: &mut usize,
    kind: u64,
    node: usize,
    slot: usize,
    block: u64,
) -> u64
    ensures { Stepped rec.old outbox.old (vote_input kind node slot block) result made.new rec.new outbox.new }
{
    quointrowel::qr_vote(rec, outbox, made, kind, node, slot, block)
}

// Announces a block with its parent to the node.
#[unsafe(no_mangle)]
pub extern "C" fn qr_block(
    rec: &mut [u64],
    outbox: &mut [u64],
    made: &mut usize,
    slot: usize,
    number: u64,
    parentslot: usize,
    parent: u64,
) -> u64
    ensures { Stepped rec.old outbox.old (block_input slot number parentslot parent) result made.new rec.new outbox.new }
{
    quointrowel::qr_block(rec, outbox, made, slot, number, parentslot, parent)
}

// Tells the node that a slot's time is out.
#[unsafe(no_mangle)]
pub extern "C" fn qr_timeout(
    rec: &mut [u64],
    outbox: &mut [u64],
    made: &mut usize,
    slot: usize,
) -> u64
    ensures { Stepped rec.old outbox.old (timeout_input slot) result made.new rec.new outbox.new }
{
    quointrowel::qr_timeout(rec, outbox, made, slot)
}

// Has the node run its rules and nothing else.
#[unsafe(no_mangle)]
pub extern "C" fn qr_look(rec: &mut [u64], outbox: &mut [u64], made: &mut usize) -> u64
    ensures { Stepped rec.old outbox.old input.Look result made.new rec.new outbox.new }
{
    quointrowel::qr_look(rec, outbox, made)
}

// Gives the node a certificate that another node wrote.
#[unsafe(no_mangle)]
pub extern "C" fn qr_take(
    rec: &mut [u64],
    outbox: &mut [u64],
    made: &mut usize,
    packet: &[u8],
) -> u64
    ensures { Taken rec.old outbox.old packet.now result made.new rec.new outbox.new }
{
    quointrowel::qr_take(rec, outbox, made, packet)
}

// Gives the node a run of other nodes' votes, four words each; one number for each vote from the answer buffer's front.
#[unsafe(no_mangle)]
pub extern "C" fn qr_tray(
    rec: &mut [u64],
    outbox: &mut [u64],
    made: &mut usize,
    votes: &[u64],
    answers: &mut [u64],
) -> u64
    ensures { Trayed rec.old outbox.old votes.now answers.old result made.new rec.new outbox.new answers.new }
{
    quointrowel::qr_tray(rec, outbox, made, votes, answers)
}

// Writes a certificate of a kind, by its number in the record's table, for a slot and a block to the buffer's front.
#[unsafe(no_mangle)]
pub extern "C" fn qr_write_certificate(
    rec: &[u64],
    buffer: &mut [u8],
    written: &mut usize,
    kind: u64,
    slot: usize,
    block: u64,
) -> u64
    ensures { Wrote (certificate_on rec.now (length buffer.old) kind slot block) buffer.old result written.new buffer.new }
{
    quointrowel::qr_write_certificate(rec, buffer, written, kind, slot, block)
}

// Writes a finality proof for a slot and a block to the buffer's front.
#[unsafe(no_mangle)]
pub extern "C" fn qr_write_proof(
    rec: &[u64],
    buffer: &mut [u8],
    written: &mut usize,
    slot: usize,
    block: u64,
) -> u64
    ensures { Wrote (proof_on rec.now (length buffer.old) slot block) buffer.old result written.new buffer.new }
{
    quointrowel::qr_write_proof(rec, buffer, written, slot, block)
}

// Reads a slot's tally card: its five words.
#[unsafe(no_mangle)]
pub extern "C" fn qr_card(rec: &[u64], slot: usize, values: &mut [u64; 5]) -> u64
    ensures { CardRead (card_on rec.now slot) result values.new }
{
    quointrowel::qr_card(rec, slot, values)
}

// Reads a slot's final block.
#[unsafe(no_mangle)]
pub extern "C" fn qr_final_block(rec: &[u64], slot: usize, block: &mut u64) -> u64
    ensures { FinalRead (final_on rec.now slot) result block.new }
{
    quointrowel::qr_final_block(rec, slot, block)
}

// Reads whether a slot's window is armed: 1 or 0.
#[unsafe(no_mangle)]
pub extern "C" fn qr_is_armed(rec: &[u64], slot: usize, armed: &mut u64) -> u64
    ensures { ArmedRead (armed_on rec.now slot) result armed.new }
{
    quointrowel::qr_is_armed(rec, slot, armed)
}

// Reads a node's stored votes in a slot: the seven words of its cell.
#[unsafe(no_mangle)]
pub extern "C" fn qr_kept_votes(rec: &[u64], slot: usize, node: usize, values: &mut [u64; 7]) -> u64
    ensures { VotesRead (votes_on rec.now slot node) result values.new }
{
    quointrowel::qr_kept_votes(rec, slot, node, values)
}

// Asks where the first certificate of a finality proof ends.
#[unsafe(no_mangle)]
pub extern "C" fn qr_split_proof(rec: &[u64], packet: &[u8], first: &mut usize) -> u64
    ensures { SplitRead (split_on rec.now packet.now) result first.new }
{
    quointrowel::qr_split_proof(rec, packet, first)
}

// Asks whether announcing a block now is right, by the policy for blocks: 1 or 0.
#[unsafe(no_mangle)]
pub extern "C" fn qr_may_announce(
    rec: &[u64],
    slot: usize,
    number: u64,
    parentslot: usize,
    parent: u64,
    may: &mut u64,
) -> u64
    ensures { AnnounceRead (announced_on rec.now slot (block_of number parentslot parent)) result may.new }
{
    quointrowel::qr_may_announce(rec, slot, number, parentslot, parent, may)
}

// Reads a slot's kept blocks: three words for each of its four places.
#[unsafe(no_mangle)]
pub extern "C" fn qr_kept_blocks(rec: &[u64], slot: usize, values: &mut [u64; 12]) -> u64
    ensures { BlocksRead (blocks_on rec.now slot) result values.new }
{
    quointrowel::qr_kept_blocks(rec, slot, values)
}

// Reads a slot's marks: timed out, and another final block.
#[unsafe(no_mangle)]
pub extern "C" fn qr_slot_marks(rec: &[u64], slot: usize, values: &mut [u64; 2]) -> u64
    ensures { MarksRead (marks_on rec.now slot) result values.new }
{
    quointrowel::qr_slot_marks(rec, slot, values)
}

// Reads whose record it is and of which ring: the four words of its head.
#[unsafe(no_mangle)]
pub extern "C" fn qr_head(rec: &[u64], values: &mut [u64; 4]) -> u64
    ensures { HeadRead (head_on rec.now) result values.new }
{
    quointrowel::qr_head(rec, values)
}

// Lists the certificates that a slot keeps from the list's front, five words a line.
#[unsafe(no_mangle)]
pub extern "C" fn qr_kept_certificates(
    rec: &[u64],
    slot: usize,
    list: &mut [u64],
    beside: &mut usize,
) -> u64
    ensures { CertificatesRead (certificates_on rec.now slot (length list.old)) list.old result beside.new list.new }
{
    quointrowel::qr_kept_certificates(rec, slot, list, beside)
}

// Reads what a slot's stored votes weigh for a block: four weights.
#[unsafe(no_mangle)]
pub extern "C" fn qr_block_weights(
    rec: &[u64],
    slot: usize,
    block: u64,
    values: &mut [u64; 4],
) -> u64
    ensures { WeightsRead (weights_on rec.now slot block) result values.new }
{
    quointrowel::qr_block_weights(rec, slot, block, values)
}

// Checks a packet that is to be one certificate.
#[unsafe(no_mangle)]
pub extern "C" fn qr_check_certificate(
    stakes: &[u64],
    packet: &[u8],
    values: &mut [u64; 5],
    missing: &mut u64,
) -> u64
    ensures { Checked (length stakes.now) (check_certificate stakes.now packet.now) result values.new missing.new }
{
    quointrowel::qr_check_certificate(stakes, packet, values, missing)
}

// Checks a packet that is to be a finality proof.
#[unsafe(no_mangle)]
pub extern "C" fn qr_check_proof(
    stakes: &[u64],
    packet: &[u8],
    values: &mut [u64; 5],
    missing: &mut u64,
) -> u64
    ensures { Checked (length stakes.now) (check_proof stakes.now packet.now) result values.new missing.new }
{
    quointrowel::qr_check_proof(stakes, packet, values, missing)
}

// How many words the state of a proof in pieces has.
#[unsafe(no_mangle)]
pub extern "C" fn qr_pieces_words() -> usize
    ensures { result ≡ state_words }
{
    quointrowel::qr_pieces_words()
}

// How many bytes it has beside them.
#[unsafe(no_mangle)]
pub extern "C" fn qr_pieces_bytes() -> usize
    ensures { result ≡ front_bytes }
{
    quointrowel::qr_pieces_bytes()
}

// Takes a piece of a finality proof; the table is that of the first piece.
#[unsafe(no_mangle)]
pub extern "C" fn qr_piece(words: &mut [u64], front: &mut [u8], stakes: &[u64], bytes: &[u8]) -> u64
    ensures { Pieced words.old front.old stakes.now bytes.now result words.new front.new }
{
    quointrowel::qr_piece(words, front, stakes, bytes)
}

// Ends a finality proof that came in pieces: what the whole packet is answered.
#[unsafe(no_mangle)]
pub extern "C" fn qr_end(
    words: &mut [u64],
    front: &mut [u8],
    values: &mut [u64; 5],
    missing: &mut u64,
) -> u64
    ensures { Ended words.old front.old result values.new missing.new words.new front.new }
{
    quointrowel::qr_end(words, front, values, missing)
}

// Reads a vote message: the vote's four numbers.
#[unsafe(no_mangle)]
pub extern "C" fn qr_read_vote(count: usize, message: &[u8], values: &mut [u64; 4]) -> u64
    ensures { MessageRead (read_vote count message.now) result values.new }
{
    quointrowel::qr_read_vote(count, message, values)
}

// Writes a vote message to the buffer's front.
#[unsafe(no_mangle)]
pub extern "C" fn qr_write_vote(
    buffer: &mut [u8],
    written: &mut usize,
    count: usize,
    kind: u64,
    node: usize,
    slot: usize,
    block: u64,
) -> u64
    ensures { Wrote (write_vote count (length buffer.old) (vote_of kind node slot block)) buffer.old result written.new buffer.new }
{
    quointrowel::qr_write_vote(buffer, written, count, kind, node, slot, block)
}

// Lists the stored votes in which two records differ from the list's front, five words a line.
#[unsafe(no_mangle)]
pub extern "C" fn qr_differ(
    first: &[u64],
    second: &[u64],
    list: &mut [u64],
    beside: &mut usize,
) -> u64
    ensures { Compared first.now second.now list.old result beside.new list.new }
{
    quointrowel::qr_differ(first, second, list, beside)
}

// Lists the own votes of a record that do not stand on what the record holds from the list's front, five words a line.
#[unsafe(no_mangle)]
pub extern "C" fn qr_stands(rec: &[u64], list: &mut [u64], beside: &mut usize) -> u64
    ensures { LinesRead (stands_on rec.now (length list.old)) list.old result beside.new list.new }
{
    quointrowel::qr_stands(rec, list, beside)
}

// Lists the votes that the first record counts in the name of the second's firm and the second record lacks from the list's front, five
// words a line.
#[unsafe(no_mangle)]
pub extern "C" fn qr_vouched(
    first: &[u64],
    second: &[u64],
    list: &mut [u64],
    beside: &mut usize,
) -> u64
    ensures { LinesRead (vouched_on first.now second.now (length list.old)) list.old result beside.new list.new }
{
    quointrowel::qr_vouched(first, second, list, beside)
}

// Lists the votes that a packet counts the record's firm for and the record lacks from the list's front, five words a line.
#[unsafe(no_mangle)]
pub extern "C" fn qr_vouched_packet(
    rec: &[u64],
    packet: &[u8],
    list: &mut [u64],
    beside: &mut usize,
) -> u64
    ensures { LinesRead (packet_on rec.now packet.now (length list.old)) list.old result beside.new list.new }
{
    quointrowel::qr_vouched_packet(rec, packet, list, beside)
}

// Lists the blocks that two records keep with two parents from the list's front, five words a line, two lines for each.
#[unsafe(no_mangle)]
pub extern "C" fn qr_same_parents(
    first: &[u64],
    second: &[u64],
    list: &mut [u64],
    beside: &mut usize,
) -> u64
    ensures { LinesRead (parents_on first.now second.now (length list.old)) list.old result beside.new list.new }
{
    quointrowel::qr_same_parents(first, second, list, beside)
}

// Writes what a number means, in a sentence, to the buffer's front.
#[unsafe(no_mangle)]
pub extern "C" fn qr_refusal_text(buffer: &mut [u8], written: &mut usize, number: u64) -> u64
    ensures { Wrote (text_on (length buffer.old) number) buffer.old result written.new buffer.new }
{
    quointrowel::qr_refusal_text(buffer, written, number)
}
