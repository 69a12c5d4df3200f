// What a guess (quick.rt) notes in scratch memory: links in an index, and ASes that wait on a shelf to tell what they have. A link or an
// AS is marked there by one more than its number, so that 0 is none.
// Kept (d): marks in memory, since scratch memory is words, zero to begin with; what reads them gives an Option or an iterator.
// Kept (a): types and relations are numbers, as `TypeLength::typ` and `Link::relation` of the crate rules are (quick.rt too).
ghost use Rattle.std.specs.Prelude.{◌<◌, IfSome};
ghost use Rattle.std.specs.Iterator.{at_most};
ghost use Rattle.network.specs.Promises.{count_of};

use network::Network;
use offers::scratch;

// An end of a link: a, the provider if the link has one, or b. Its number is that of its word among the link's places.
#[derive(Clone, Copy, Debug, PartialEq, Eq)]
pub enum End {
    A,
    B,
}

// The passes over provider links: up, providers hear their customers, and down, customers hear their providers.
#[derive(Clone, Copy, Debug, PartialEq, Eq)]
pub enum Pass {
    Up,
    Down,
}

impl Pass {
    // The end of a provider link that hears.
    pub fn hearer(self) -> End {
        match self {
            Pass::Up => End::A,
            Pass::Down => End::B,
        }
    }

    // The end that tells.
    fn teller(self) -> End {
        match self {
            Pass::Up => End::B,
            Pass::Down => End::A,
        }
    }

    // The type of the lines that are heard.
    pub fn typ(self) -> u32 {
        match self {
            Pass::Up => 1,
            Pass::Down => 3,
        }
    }
}

// The index (offers::scratch) notes links. Its heads: by places the provider links over which the AS there tells, and all peer links.
const HEADS: usize = scratch::LINKS;

pub const PEERS: usize = HEADS + scratch::ASES;

// How many words the index has, and the shelf.
pub const INDEX: usize = PEERS + 1;

pub const SHELF: usize = 2 * scratch::ASES + 1;

// The head of the links over which the AS at a place tells.
pub fn head_of(place: u32) -> usize {
    scratch::head_of(HEADS, place)
}

// Link i, for a pass. The head is chosen first, so that no branch hangs on the relation.
// Kept (d): network, places, index and pass are handed on as they come: a struct for them would serve this function and `note_links` alone.
fn note_link(network: Network<'_>, places: &[u32], index: &mut [u32], pass: Pass, i: usize)
    requires { i < count_of network.words.now }
{
    let teller = scratch::at(places, 2 * i + pass.teller() as usize);
    let head = if network::link_at(network.words, i).relation == 1 {
        head_of(teller)
    } else {
        PEERS
    };
    scratch::note(index, head, i);
}

// All links, those with smaller places first, as far as the index has words for them, which is all of an accepted network.
pub fn note_links(network: Network<'_>, places: &[u32], index: &mut [u32], pass: Pass) {
    for i in 0..scratch::indexed(network.words) {
        note_link(network, places, index, pass, i);
    }
}

// The links under a head of the index, from the one that was noted last. The next one is looked for only when it is asked for, where
// the head, which stands behind all links, is one more mark.
#[derive(Clone, Copy, Debug, PartialEq, Eq)]
pub struct Noted<'a> {
    index: &'a [u32],
    mark: u32,
    ghost some: { 0 < mark },
}

impl<'a> Noted<'a> {
    pub fn under(index: &'a [u32], head: usize) -> Noted<'a> {
        let mark = u32::try_from(head.saturating_add(1)).unwrap_or(u32::MAX);
        Noted { index, mark }
    }
}

impl<'a> Iterator for Noted<'a> {
    type Item = u32;

    ghost remaining = { λ s. at_most s.mark };

    fn next(&mut self) -> Option<u32> {
        let mark = scratch::noted_before(self.index, self.mark);
        let link = mark.checked_sub(1)?;
        self.mark = mark;
        Some(link)
    }
}

// Where an end of a link stands.
pub fn place_of(places: &[u32], link: u32, end: End) -> u32 {
    scratch::at(places, 2 * (link as usize) + end as usize)
}

// Kept (d): no type with the `Stack` of findings (order.rt): that is one stack in an array, and these are as many as there are lengths,
// linked through one list: an array for each would be 512 times 512 words.
// ASes wait on a shelf, in a stack for each length. Words to ASES: the mark on top, by length. Words past the one there, which stays 0:
// the mark below, by place.

// Whether none waits with a length.
pub fn is_empty(shelf: &[u32], length: usize) -> bool {
    scratch::at(shelf, length) == 0
}

// The AS at a place waits with a length.
pub fn push(shelf: &mut [u32], place: u32, length: usize)
    requires { place < 4294967295 }
{
    let mark = place + 1;
    scratch::put(
        shelf,
        scratch::ASES + (mark as usize),
        scratch::at(shelf, length),
    );
    scratch::put(shelf, length, mark);
}

// The place of the AS that waited last with a length, which waits no more.
pub fn pop(shelf: &mut [u32], length: usize) -> Option<u32> {
    let mark = scratch::at(shelf, length);
    let place = mark.checked_sub(1)?;
    scratch::put(
        shelf,
        length,
        scratch::at(shelf, scratch::ASES + (mark as usize)),
    );
    Some(place)
}
