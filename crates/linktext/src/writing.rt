// Writing a link text: every refusal is looked at first, then the text's length, then it is written line by line.
//
// Kept (d): `bytes, at`, and the next place as answer, as the public `put_number` and its clause `Stored` have it. A cursor struct, as
// `Page` in `report`, would add itself and two laws (that there is room, what is put) beside `Stored`, for three private functions:
// `put_field`, `put_end`, `put_line`.
// Kept (a): a relation is a number, as in `rules::Link`: `write_text` answers for others too, by `fault_of_relations`.
ghost use Rattle.std.specs.Prelude.{◌≡◌, ◌∷◌, [], ◌++◌, ◌+◌, ◌*◌, ◌<◌, ◌≤◌, length};
ghost use Rattle.std.proofs.lemmas.List.Edits.{sets};
ghost use Rattle.rules.specs.Network.{links_of};
ghost use Rattle.rules.specs.Checks.{base_limits};
ghost use Rattle.linktext.specs.Lines.{bar, lf};
ghost use Rattle.linktext.specs.Texts.{decimal, relation_text, line_text, text_of, fault_of_relations, fault_of_text};
ghost use Rattle.linktext.specs.Entries.{fitted, filled, write_reply, final_bytes};
ghost use Rattle.linktext.specs.Stored.{Stored};

use crate::line::{BAR, MINUS, ONE, ZERO};
use crate::quick::LF;
use network::WORDS_PER_LINK;
use rules::{Limits, Link, Refusal};

// Refused at the first link whose relation is not 0 or 1.
fn relation_fault(words: &[u32]) -> Result<(), Refusal>
    ensures { result ≡ fault_of_relations 0 (links_of words.now) }
{
    for i in 0..words.len() / WORDS_PER_LINK {
        if 1 < network::link_at(words, i).relation {
            return Err(Refusal::NoRelation(i));
        }
    }
    Ok(())
}

// Over the limit if the words are no whole links or too many links; then a link's relation.
fn text_fault(words: &[u32], limits: Limits) -> Result<(), Refusal>
    ensures { result ≡ fault_of_text limits words.now }
{
    if words.len() % WORDS_PER_LINK != 0 || limits.links < words.len() / WORDS_PER_LINK {
        return Err(Refusal::OverLimit);
    }
    relation_fault(words)
}

// How many digits a number has.
fn digit_count(n: u32) -> usize
    ensures { result ≡ length (decimal n) }
{
    n.max(1).ilog10() as usize + 1
}

// How many bytes a relation has.
fn relation_length(relation: u32) -> usize
    ensures { result ≡ length (relation_text relation) }
{
    if relation == 1 { 2 } else { 1 }
}

// How many bytes a link's line has.
fn line_length(l: Link) -> usize
    ensures { result ≡ length (line_text l) }
{
    let a = digit_count(l.a);
    let b = digit_count(l.b);
    let relation = relation_length(l.relation);
    a + b + relation + 3
}

// How many bytes the text of the links has.
fn text_length(words: &[u32]) -> usize
    requires { 25 * length (links_of words.now) < 18446744073709551616 }
    ensures { result ≡ length (text_of (links_of words.now)) }
{
    (0..words.len() / WORDS_PER_LINK)
        .map(|i| line_length(network::link_at(words, i)))
        .sum()
}

// Writes a number from byte `at` on, its last digit first, and answers the byte after it.
// Kept (a): digits by hand, not `write!`: public with its clause, `Stored`, and it answers a place and no `Result`; so do those that write
// with it.
pub fn put_number(bytes: &mut [u8], at: usize, n: u32) -> usize
    requires { at + length (decimal n) ≤ length bytes.old }
    ensures { Stored bytes.old at (decimal n) bytes.new result }
{
    let end = at + digit_count(n);
    let mut left = n;
    for place in (at..end).rev() {
        bytes[place] = ZERO + (left % 10) as u8;
        left /= 10;
    }
    end
}

// Writes a number and a bar.
fn put_field(bytes: &mut [u8], at: usize, n: u32) -> usize
    requires { at + length (decimal n) + 1 ≤ length bytes.old }
    ensures { Stored bytes.old at (decimal n ++ (bar ∷ [])) bytes.new result }
{
    let end = put_number(bytes, at, n);
    bytes[end] = BAR;
    end + 1
}

// Writes a relation and the line's end.
fn put_end(bytes: &mut [u8], at: usize, relation: u32) -> usize
    requires { at + length (relation_text relation) + 1 ≤ length bytes.old }
    ensures { Stored bytes.old at (relation_text relation ++ (lf ∷ [])) bytes.new result }
{
    if relation == 1 {
        bytes[at] = MINUS;
        bytes[at + 1] = ONE;
        bytes[at + 2] = LF;
        at + 3
    } else {
        bytes[at] = ZERO;
        bytes[at + 1] = LF;
        at + 2
    }
}

// Writes a link's line.
fn put_line(bytes: &mut [u8], at: usize, l: Link) -> usize
    requires { at + length (line_text l) ≤ length bytes.old }
    ensures { Stored bytes.old at (line_text l) bytes.new result }
{
    let second = put_field(bytes, at, l.a);
    let third = put_field(bytes, second, l.b);
    put_end(bytes, third, l.relation)
}

// Writes the text of the links from byte 0 on.
fn put_text(words: &[u32], bytes: &mut [u8])
    requires { length (text_of (links_of words.now)) ≤ length bytes.old }
    ensures { bytes.new ≡ sets bytes.old 0 (text_of (links_of words.now)) }
{
    let mut at = 0;
    for i in 0..words.len() / WORDS_PER_LINK {
        at = put_line(bytes, at, network::link_at(words, i));
    }
}

// Writes the text of links that are not refused, if it has room.
fn write_fitting(words: &[u32], bytes: &mut [u8]) -> Result<usize, Refusal>
    requires { 25 * length (links_of words.now) < 18446744073709551616 }
    ensures reply { result ≡ fitted (length bytes.old) (length (text_of (links_of words.now))) (length (text_of (links_of words.now))) }
    ensures after { bytes.new ≡ filled (text_of (links_of words.now)) bytes.old }
{
    let need = text_length(words);
    if bytes.len() < need {
        return Err(Refusal::OutputShort);
    }
    put_text(words, bytes);
    Ok(need)
}

// Writing within limits.
fn write_within(words: &[u32], bytes: &mut [u8], limits: Limits) -> Result<usize, Refusal>
    requires { 25 * limits.links < 18446744073709551616 }
    ensures reply { result ≡ write_reply limits words.now (length bytes.old) }
    ensures after { bytes.new ≡ final_bytes limits words.now bytes.old }
{
    text_fault(words, limits)?;
    write_fitting(words, bytes)
}

// The text of a list of link words, a line for each link: the number of its bytes, or a refusal, which leaves the bytes as they were.
pub fn write_text(words: &[u32], bytes: &mut [u8]) -> Result<usize, Refusal>
    ensures reply { result ≡ write_reply base_limits words.now (length bytes.old) }
    ensures after { bytes.new ≡ final_bytes base_limits words.now bytes.old }
{
    write_within(words, bytes, Limits::BASE)
}
