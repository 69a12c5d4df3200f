// A lent list of link words, three per link: its check, its ASes in ascending order, and the working room that it needs.
#![tactic(auto, unfolding(rules::specs::Checks::is_same_pair, crate::specs::Slots::spread_of, crate::specs::Tables::home_of_as, crate::specs::Tables::home_of_pair, rules::specs::Network::links_of, rules::specs::Checks::check_words, rules::specs::Network::insert, rules::specs::Network::with_ends, crate::specs::Prefix::check_at))]

ghost use Rattle.std.specs.Prelude.{◌≡◌, ◌<◌, ◌≤◌, length, take, replicate};
ghost use Rattle.rules.specs.Network.{links_of, link_in_words, ases_of};
ghost use Rattle.rules.specs.Checks.{base_limits, check_words, needed_room};
ghost use Rattle.rules.specs.Ascending.{Ascending};
ghost use Rattle.network.specs.Promises.{HasLink, with_link, Stands, Listed};
ghost use Rattle.network.specs.Tables.{home_of_as, Fresh};

pub use accepted::Network;
use rules::{Limits, Link, Refusal};

mod accepted;
mod gather;
mod quick;
mod slots;
mod sorted;
mod steps;

/// Words per link: AS a, AS b, relation.
pub const WORDS_PER_LINK: usize = 3;

/// Link i of the words.
pub fn link_at(words: &[u32], i: usize) -> Link
    requires { HasLink words.now i }
    ensures { result ≡ link_in_words words.now i }
{
    let at = WORDS_PER_LINK * i;
    Link {
        a: words[at],
        b: words[at + 1],
        relation: words[at + 2],
    }
}

/// Link i gets into the words.
pub fn put_link(words: &mut [u32], i: usize, l: Link)
    requires { HasLink words.old i }
    ensures { words.new ≡ with_link words.old i l }
{
    let at = WORDS_PER_LINK * i;
    words[at] = l.a;
    words[at + 1] = l.b;
    words[at + 2] = l.relation;
}

// The check of a list of link words within given limits. The two tables are the caller's scratch memory, zero at entry: what stands
// in them afterwards is not said.
pub(crate) fn check_with(
    words: &[u32],
    limits: Limits,
    seats: &mut [u32],
    pairs: &mut [u16],
) -> Result<usize, Refusal>
    requires { Fresh limits seats.old pairs.old }
    ensures { result ≡ check_words limits words.now }
{
    if words.len() % WORDS_PER_LINK != 0 || limits.links < words.len() / WORDS_PER_LINK {
        return Err(Refusal::OverLimit);
    }
    let mut tables = steps::Tables {
        limits,
        seats,
        pairs,
        ases: 0,
    };
    tables.take_all(words)
}

/// The check of a list of link words: refusals 1 to 6, or the number of ASes. The tables have 2,048 and 5,632 homes.
pub fn check_links(words: &[u32]) -> Result<usize, Refusal>
    ensures { result ≡ check_words base_limits words.now }
{
    let mut seats = [0u32; 2561];
    let mut pairs = [0u16; 7168];
    check_with(words, Limits::BASE, &mut seats, &mut pairs)
}

/// The slot of an AS among 2,048.
pub fn slot_of(x: u32) -> usize
    ensures { (result ≡ home_of_as 2048 x) × (result < 2048) }
{
    slots::as_home(x, 2048)
}

/// The ASes of the links, ascending, in the first words of a lent list, and how many they are. The other words stay.
// Kept (a): the count beside the list, not a slice of it: public with its clause, `Listed`.
pub fn list_ases(words: &[u32], list: &mut [u32]) -> usize
    requires { length (ases_of (links_of words.now)) ≤ length list.old }
    ensures { Listed (ases_of (links_of words.now)) list.old list.new result }
{
    match quick::list_quickly(words, list) {
        Some(n) => n,
        None => sorted::list_plainly(words, list),
    }
}

/// Where x stands among the first n words.
// Kept (a): the list and its length side by side: public with its clauses, `Ascending (take n list)` and `Stands`.
pub fn place_of(list: &[u32], n: usize, x: u32) -> Option<usize>
    requires { (n ≤ length list.now) × Ascending (take n list.now) }
    ensures { Stands list.now n x result }
{
    list[..n].binary_search(&x).ok()
}

/// Every word is 0.
// Kept (a): a second name for `fill(0)`, public with its clause.
pub fn clear(room: &mut [u32])
    ensures { room.new ≡ replicate (length room.old) 0 }
{
    room.fill(0);
}

/// The working room that so many links and ASes need, in words.
pub fn room_need(links: usize, ases: usize) -> usize
    requires { (links < 4294967296) × (ases < 4294967296) }
    ensures { result ≡ needed_room links ases }
{
    8 * links + 8 * ases
}
