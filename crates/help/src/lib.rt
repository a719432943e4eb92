// What the panel says of itself: a page of its commands, refusals and kinds; what a command takes and answers; what a number means.
#![tactic(auto)]

ghost use Rattle.std.specs.Prelude.{◌≡◌, [], ◌∷◌, ◌<◌, length};
ghost use Rattle.std.proofs.lemmas.List.Edits.{sets};
ghost use Rattle.rulebook.specs.Tools.{choose};
ghost use Rattle.lines.specs.Page.{Wrote};
ghost use Rattle.help.specs.Manual.{lines_of, screen, told, packets, shown, asked, compared};
ghost use Rattle.help.specs.Topics.{named, opens, topic_in, topic_of, topic_line, numbered, why_line};

use commands::same;
use door::{Unwritten, send_page};
use lines::Page;
use replies::malformed;
use texts::put_refusal;

// The number of the last refusal.
const LAST_REFUSAL: u64 = 18;

// ---- the page

// Puts the page of the commands, kinds and refusals.
fn put_screen(page: &mut Page)
    ensures { Wrote page.old (lines_of screen) page.new }
{
    page.text(
        b"start OWN GENESIS STAKE..            0
watch GENESIS STAKE..                0; a node that never votes
vote KIND NODE SLOT BLOCK            0 N kind,slot,block ..
tray KIND NODE SLOT BLOCK ..         0 N kind,slot,block .. : ANSWER ..
take HEX                             0 N kind,slot,block ..
block SLOT NUMBER PARENTSLOT PARENT  0 N kind,slot,block ..
timeout SLOT | look                  0 N kind,slot,block ..
cert KIND SLOT BLOCK                 0 BYTES HEX
proof SLOT BLOCK                     0 BYTES HEX
check HEX STAKE..                    0 KIND SLOT BLOCK SIGNERS WEIGHT, 15 MISSING
checkproof HEX STAKE..               0 KIND SLOT BLOCK SIGNERS WEIGHT, 15 MISSING
card SLOT                            0 SKIP FINAL SKIPCERT BLOCK WEIGHT
piece HEX STAKE..                    more
end                                  0 KIND SLOT BLOCK SIGNERS WEIGHT, 15 MISSING
pack COUNT KIND NODE SLOT BLOCK      0 BYTES HEX
unpack COUNT HEX                     0 KIND NODE SLOT BLOCK
aside                                0
differ                               0 N slot,node,kind,block,side .., 1 the node aside, 2 the present one; 17 SIDE, 9 LINES
save FILE                            0; the node's record, as ./differ reads it
stands                               0 N slot,node,kind,block,rule .., own votes that do not stand, rule 2 to 5 for B to E; 9 LINES
vouched | vouched HEX                0 N slot,node,kind,block,source .., votes of the node that the node aside or a packet counts and it lacks; 17 SIDE
board | board SLOT                   the node, one slot of it; with more than 64 nodes the heavy blocks alone
board SLOT FROM                      a slot's blocks with that number or more, twenty of them
votes                                the stored votes; with more than 64 nodes a line a slot
votes SLOT FROM                      a slot's votes by that node and those after it, of 64 nodes
why NUMBER                           what a refusal means
help | quit                          these lines; the script's end
votes         1 notar, 2 notar-fallback, 3 skip, 4 skip-fallback, 5 final
certificates  1 fast-final, 2 notar, 3 notar-fallback, 4 skip, 5 final; 11 to 15 with more than 64 nodes
records       1 to 5 a vote was cast, 6 a block is final, 7 a window is armed, 8 another block of the slot is final too
? is a line that is no command, or a file that was not saved. A refusal is its number, and beside 15 of a check what is missing:
1: The stake table, the own number or genesis breaks the sizes.
2: The node number is not in the table.
3: The slot is not 1 to 16.
4: The kind is not 1 to 5; or, with more than 64 nodes, a certificate's is not 11 to 15; or the timeout is for a watcher.
5: The block is 0 where one is needed, or not 0 where none is; or a block's parent number is 0.
6: The vote is in the own node's name and came from outside.
7: That very vote, block with parent, or timeout is already kept; or a certificate of that kind, slot and block.
8: Another stands in its place: a second initial vote, a fourth notar-fallback, a fifth block of a slot, a kept block with another parent, another block in a kept certificate's place, a tenth certificate of kind 3.
9: The outbox is below 160 records; or the buffer below 32 bytes for a certificate, 64 for a proof (768 and 1,536 with more than 64 nodes), 16 for a vote message, 512 for a text like this; or a tray has fewer places for answers than votes; or a list fewer lines than there are to tell.
10: The timeout is for a window that is not armed.
11: The parent slot is not below the slot, or is slot 0 with another number than genesis.
12: The packet ends early, or bytes remain; or a part of a vote ends a tray; or no piece was taken before the end.
13: A number is not shortest, or above 64 bits.
14: A signer is beyond the table or in both masks, or mask B is used where 0 is due.
15: The weight is below the threshold; a check tells beside it what is missing.
16: The packet is not one of the two proof forms.
17: No node is started; or the record has a wrong length, a field outside its range, an own number above the number of nodes, a total that is not the sum, a fallback block kept twice for one node, an own notar-fallback whose block does not reach rule D's weights, a block kept twice in a slot, a tally card that a recount of the slot's votes does not give, a kept certificate that the checker refuses or that repeats another, or an unused place that is not 0.
18: The certificate or proof asked for is not held.
",
    )
}

// help
pub fn help(page: &mut [u8]) -> Result<(), Unwritten>
    ensures { page.new ≡ sets page.old 0 (lines_of screen) }
{
    let mut screen = Page::new(page);
    put_screen(&mut screen);
    send_page(&screen)
}

// ---- one command

// Whether a text begins with a word, and a blank or the line's end stands behind it.
fn named(word: &[u8], rest: &[u8]) -> bool
    ensures { result ≡ named word.now rest.now }
{
    let n = word.len();
    if rest.len() <= n {
        return false;
    }
    let there = same(&rest[0..n], word);
    there & (rest[n] <= 32)
}

// Whether the first byte of what is left of a text is told.
fn opens(word: &[u8], rest: &[u8], fresh: bool, on: bool) -> bool
    requires { 0 < length rest.now }
    ensures { result ≡ opens word.now rest.now fresh on }
{
    if !fresh {
        return on;
    }
    if rest[0] == b' ' {
        return on;
    }
    named(word, rest)
}

// Puts a byte where it is told.
fn put_told(page: &mut Page, b: u8, on: bool)
    ensures { Wrote page.old (choose on (b ∷ []) []) page.new }
{
    if on {
        page.byte(b);
    }
}

// Puts what a text tells of a word.
fn put_topic(page: &mut Page, word: &[u8], text: &[u8])
    ensures { Wrote page.old (topic_in word.now text.now) page.new }
{
    let mut fresh = true;
    let mut on = false;
    for (i, b) in text.iter().enumerate() {
        on = opens(word, &text[i..], fresh, on);
        fresh = *b == b'\n';
        put_told(page, *b, on);
    }
}

// The commands of a node, and those that tell it something.
fn put_told_commands(page: &mut Page, word: &[u8])
    ensures { Wrote page.old (topic_in word.now (lines_of told)) page.new }
{
    put_topic(
        page,
        word,
        b"start OWN GENESIS STAKE..
  A fresh node with this own number, genesis, and the stake of each node.
  0; 1. A refused start leaves the earlier node.
watch GENESIS STAKE..
  A fresh watcher, which never votes and refuses timeouts with 4.
  0; 1. A refused start leaves the earlier node.
vote KIND NODE SLOT BLOCK
  A vote of another firm; its block is 0 with kinds 3 to 5.
  0 N kind,slot,block .., the records it made; 17, 4, 3, 2, 6, 5, 7, 8.
tray KIND NODE SLOT BLOCK ..
  A run of votes, each as if it came alone.
  0 N kind,slot,block .. : ANSWER .., one answer a vote; 17, 12.
block SLOT NUMBER PARENTSLOT PARENT
  A block and its parent; in slot 0 stands genesis.
  0 N kind,slot,block .., the records it made; 17, 3, 5, 11, 7, 8.
timeout SLOT
  The slot's time is up.
  0 N kind,slot,block .., the records it made; 17, 4, 3, 10, 7.
look
  Runs the rules once more.
  0 N kind,slot,block .., the records it made; 17.
take HEX
  A certificate from another firm, checked in full and kept.
  0 N kind,slot,block .., the records it made; 17, those of check, 7, 8.
",
    )
}

// The commands of packets and messages.
fn put_packets(page: &mut Page, word: &[u8])
    ensures { Wrote page.old (topic_in word.now (lines_of packets)) page.new }
{
    put_topic(
        page,
        word,
        b"cert KIND SLOT BLOCK
  Writes a certificate; its block is 0 with kinds 4, 5, 14 and 15.
  0 BYTES HEX; 17, 4, 3, 5, 18.
proof SLOT BLOCK
  Writes a finality proof.
  0 BYTES HEX; 17, 3, 5, 18.
check HEX STAKE..
  Checks a certificate with these stakes; - is the empty packet.
  0 KIND SLOT BLOCK SIGNERS WEIGHT; 15 MISSING; 1, 12, 13, 4, 3, 5, 14.
checkproof HEX STAKE..
  Checks a finality proof with these stakes; - is the empty packet.
  0 KIND SLOT BLOCK SIGNERS WEIGHT; 15 MISSING; 1, 12, 13, 4, 3, 5, 14, 16.
piece HEX STAKE..
  The next bytes of a finality proof, which is checked with the first stakes.
  more; 1.
end
  Checks the pieces together.
  As checkproof; 12 with no piece before it.
pack COUNT KIND NODE SLOT BLOCK
  Writes a vote as a message in a ring of so many nodes.
  0 BYTES HEX; 1, 4, 3, 2, 5.
unpack COUNT HEX
  Reads a vote message in a ring of so many nodes.
  0 KIND NODE SLOT BLOCK; 1, 12, 13, 4, 3, 2, 5.
",
    )
}

// The commands for people.
fn put_shown(page: &mut Page, word: &[u8])
    ensures { Wrote page.old (topic_in word.now (lines_of shown)) page.new }
{
    put_topic(
        page,
        word,
        b"board
board SLOT
board SLOT FROM
  The node slot by slot; one slot; twenty of its blocks from a number on.
  Lines for people, with more than 64 nodes the heavy blocks alone; 17, 3.
votes
votes SLOT FROM
  Every stored vote; those of a slot from a node on, of 64 nodes.
  SLOT NODE KIND BLOCK a line; 17, 3, 2.
  With more than 64 nodes votes alone is a line a slot.
help
help COMMAND
  The commands, refusals and kinds; one command.
  Lines for people; ? where there is no such command.
why NUMBER
  What a refusal means, in a sentence.
  A line for people.
quit
  Ends the script.
  No answer.
",
    )
}

// The commands that ask the node.
fn put_asked(page: &mut Page, word: &[u8])
    ensures { Wrote page.old (topic_in word.now (lines_of asked)) page.new }
{
    put_topic(
        page,
        word,
        b"card SLOT
  What the slot's votes weigh, and the leading notar block with its weight.
  0 SKIP FINAL SKIPCERT BLOCK WEIGHT; 17, 3.
blocks SLOT
  The blocks that the slot keeps, as they were announced, four at most.
  0 N number,parentslot,parent ..; 17, 3.
marks SLOT
  1 where armed, 1 where timed out, the final block, 1 where another is final.
  0 ARMED TIMEDOUT FINAL CONFLICT; 17, 3.
head
  Whose record it is and of which ring; a watcher's own number is NODES.
  0 OWN NODES STAKE GENESIS; 17.
certificates SLOT
  The certificates from other firms that the slot keeps.
  0 N kind,slot,block,signers,weight ..; 17 0; 3 0.
weights SLOT BLOCK
  What the slot's votes weigh for the block, and what is missing to rule D.
  0 NOTAR NOTARFALLBACK SKIP MISSING; 17, 3, 5.
",
    )
}

// The commands by which nodes are compared.
fn put_compared(page: &mut Page, word: &[u8])
    ensures { Wrote page.old (topic_in word.now (lines_of compared)) page.new }
{
    put_topic(
        page,
        word,
        b"aside
  Copies the node aside, in the place of the one that stood there.
  0; 17.
differ
  The stored votes in which the node aside, side 1, and this one, 2, differ.
  0 N slot,node,kind,block,side ..; 17 SIDE; 9 LINES.
  0 1 0,0,0,0,0 where the stake tables differ.
stands
  Own votes that do not stand on what the node holds; rules 2 to 5 are B to E.
  0 N slot,node,kind,block,rule ..; 17 0.
vouched
vouched HEX
  Votes of this node that the node aside, or a packet, counts and it lacks;
  source 0 is a stored vote, another the kind of a certificate.
  0 N slot,node,kind,block,source ..; 17 SIDE; 1 0; those of check with 0.
parents
  Blocks that the node aside, side 1, and this one, 2, keep with two parents.
  0 N slot,block,parent slot,parent,side ..; 17 SIDE; 1 0.
save FILE
  The node's record in a file, as ./differ reads it.
  0; 17; ? where the file was not written.
",
    )
}

// What the manual tells of a word.
fn put_manual(page: &mut Page, word: &[u8])
    ensures { Wrote page.old (topic_of word.now) page.new }
{
    put_told_commands(page, word);
    put_packets(page, word);
    put_shown(page, word);
    put_asked(page, word);
    put_compared(page, word);
}

// help COMMAND; a word of which the manual tells nothing is no command.
pub fn topic(page: &mut [u8], word: &[u8]) -> Result<(), Unwritten>
    ensures { page.new ≡ sets page.old 0 (topic_line word.now) }
{
    let mut lines = Page::new(page);
    put_manual(&mut lines, word);
    if lines.used() == 0 {
        return malformed(page);
    }
    send_page(&lines)
}

// ---- a number

// Puts a refusal's number before its text; a number that is none has no place there.
fn put_number(page: &mut Page, n: u64)
    ensures { Wrote page.old (numbered n) page.new }
{
    if n <= LAST_REFUSAL {
        page.decimal(n);
        page.text(b": ");
    }
}

// why NUMBER
pub fn why(page: &mut [u8], n: u64) -> Result<(), Unwritten>
    ensures { page.new ≡ sets page.old 0 (why_line n) }
{
    let mut line = Page::new(page);
    put_number(&mut line, n);
    put_refusal(&mut line, n);
    line.byte(b'\n');
    send_page(&line)
}
