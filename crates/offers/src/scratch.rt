// Scratch memory for guesses: words that can be read and written at any place, and an index of directions. What a guess makes of them is
// looked at before it is used.
ghost use Rattle.std.specs.Prelude.{◌+◌, ◌*◌, ◌≤◌, ◌<◌, ◌≡◌, length, get_or, set};
ghost use Rattle.offers.specs.Scratch.{links_indexed, earlier_noted};

use network::WORDS_PER_LINK;

// The links of the longest list, and the ASes of the largest network: what scratch memory has words for.
pub const LINKS: usize = 1536;

pub const ASES: usize = 512;

// Word i, and 0 past the end.
// Kept (a): 0, not an `Option`, past the end: public with its clause, `get_or s i 0`.
pub fn at(s: &[u32], i: usize) -> u32
    ensures { result ≡ get_or s.now i 0 }
{
    s.get(i).copied().unwrap_or(0)
}

// Word i gets a value, if there is such a word.
// Kept (d): the index, since `get_mut` says nothing of what the words are once its loan is over.
pub fn put(s: &mut [u32], i: usize, value: u32)
    ensures { s.new ≡ set s.old i value }
{
    if i < s.len() {
        s[i] = value;
    }
}

// The number of links, as far as an index has words for them.
// Kept (a): public with its clause; `table` bounds its walk over the links by it.
pub fn indexed(words: &[u32]) -> usize
    ensures { (result ≡ links_indexed words.now) × (result ≤ 1536) × (3 * result ≤ length words.now) }
{
    let links = words.len() / WORDS_PER_LINK;
    links.min(LINKS)
}

// An index: links or directions, noted as one more than their number, so that 0 is none. The first words, by number: what was noted before,
// under the same head. Words behind them are heads: what was noted last.

// One is noted under a head.
// Kept (a): lists as words that name words, since memory is lent and there is no heap; what reads and notes them is public with its
// clauses.
pub fn note(index: &mut [u32], head: usize, number: usize)
    requires { number < 4294967295 }
    ensures { index.new ≡ set (set index.old number (get_or index.old head 0)) head (number + 1) }
{
    put(index, number, at(index, head));
    put(index, head, (number + 1) as u32);
}

// The head of the AS at a place, which stands so many words behind the first one.
pub fn head_of(heads: usize, place: u32) -> usize
    requires { heads < 4294967296 }
    ensures { result ≡ heads + place }
{
    heads + (place as usize)
}

// What was noted before: only a smaller one counts.
// Kept (a): 0 for none, as words of the index have it: public with its clause, `earlier_noted`.
pub fn noted_before(index: &[u32], noted: u32) -> u32
    requires { 0 < noted }
    ensures { (result < noted) × (result ≡ earlier_noted index.now noted) }
{
    let before = at(index, (noted - 1) as usize);
    if before < noted { before } else { 0 }
}
