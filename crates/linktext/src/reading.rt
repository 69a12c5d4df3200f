// A whole link text read into words, three per link.
ghost use Rattle.std.specs.Prelude.{◌≡◌, ◌+◌, ◌*◌, ◌≤◌, ◌++◌, length, take, drop};
ghost use Rattle.rules.specs.Checks.{base_limits};
ghost use Rattle.linktext.specs.Texts.{lines_of, text_read_from, text_in};
ghost use Rattle.linktext.specs.Entries.{room_fault, filled, read_reply, final_words};
ghost use Rattle.linktext.specs.Scratch.{ReadInto};
ghost use Rattle.linktext.specs.Usual.{Gives};

use crate::LineRead;
use crate::line::{find, read_line};
use crate::quick::{LF, quick_link};
use network::WORDS_PER_LINK;
use rules::{Limits, Refusal};

// What a line gives, and where it ends: at its LF or with the text.
#[derive(Clone, Copy, Debug, PartialEq, Eq)]
struct LineAt {
    end: usize,
    read: LineRead,
}

// What the line that begins at `at` gives, whatever it holds.
fn any_line(text: &[u8], at: usize) -> LineAt
    requires { at ≤ length text.now }
    ensures { Gives text.now at result.end result.read }
{
    let end = find(text, at, LF);
    let read = read_line(&text[at..end]);
    LineAt { end, read }
}

// The same, read in one pass where it is a usual line.
fn line_at(text: &[u8], at: usize) -> LineAt
    requires { at ≤ length text.now }
    ensures { Gives text.now at result.end result.read }
{
    match quick_link(text, at) {
        Some(usual) => LineAt {
            end: usual.end,
            read: LineRead::Reads(usual.link),
        },
        None => any_line(text, at),
    }
}

// The lines in order, each link into the words as it comes.
// Kept (d): a `while` from line to line: an iterator of `LineAt`s would add a type that holds `text, at`, and its steps in the logic, for this loop alone; `n` would stay.
fn read_lines(text: &[u8], most: usize, words: &mut [u32]) -> Result<usize, Refusal>
    requires { 3 * most ≤ length words.old }
    ensures { ReadInto (text_read_from most 0 1 (lines_of text.now)) words.old words.new result }
{
    let mut at = 0;
    let mut line = 1;
    let mut n = 0;
    while at < text.len() {
        let given = line_at(text, at);
        if given.read != LineRead::Skip {
            let LineRead::Reads(link) = given.read else {
                return Err(Refusal::Unreadable(line));
            };
            if most <= n {
                return Err(Refusal::OverLimit);
            }
            network::put_link(words, n, link);
            n += 1;
        }
        line += 1;
        at = given.end + 1;
    }
    Ok(n)
}

// A text read into lent scratch; of a refusal the scratch may hold the links before it.
pub fn read_scratch(text: &[u8], limits: Limits, words: &mut [u32]) -> Result<usize, Refusal>
    requires { 3 * limits.links ≤ length words.old }
    ensures { ReadInto (text_in limits text.now) words.old words.new result }
{
    if limits.text < text.len() {
        return Err(Refusal::OverLimit);
    }
    read_lines(text, limits.links, words)
}

// The words that were read handed over, if they fit.
fn hand_over(read: &[u32], words: &mut [u32]) -> Result<(), Refusal>
    ensures reply { result ≡ room_fault (length words.old) (length read.now) }
    ensures words { words.new ≡ filled read.now words.old }
{
    if words.len() < read.len() {
        return Err(Refusal::OutputShort);
    }
    words[..read.len()].copy_from_slice(read);
    Ok(())
}

// A text read into lent words: the number of its links, or the first refusal, which leaves the words as they were.
pub fn read_text(text: &[u8], words: &mut [u32]) -> Result<usize, Refusal>
    ensures reply { result ≡ read_reply base_limits text.now (length words.old) }
    ensures words { words.new ≡ final_words base_limits text.now words.old }
{
    let mut scratch = [0u32; WORDS_PER_LINK * Limits::BASE.links];
    let n = read_scratch(text, Limits::BASE, &mut scratch)?;
    hand_over(&scratch[..WORDS_PER_LINK * n], words)?;
    Ok(n)
}
