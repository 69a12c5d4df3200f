// The one shared election: what is offered over a direction, the best offer so far, and the pass that finds every AS's best offer.
#![tactic(auto, unfolding(rules::specs::Offers::better, rules::specs::Network::links_of, rules::specs::Stable::table_of, rules::specs::Stable::lost, crate::specs::Ways::index_in))]

ghost use Rattle.std.specs.Prelude.{◌+◌, ◌*◌, ◌/◌, ◌≤◌, ◌<◌, ◌≡◌, ◌++◌, length, take, drop};
ghost use Rattle.rules.specs.Offers.{better};
ghost use Rattle.rules.specs.Network.{links_of};
ghost use Rattle.rules.specs.Stable.{table_of};
ghost use Rattle.network.specs.Promises.{HasLink};
ghost use Rattle.offers.specs.Lines.{number_word, entry_pair, next_word, with_line, fresh_lines};
ghost use Rattle.offers.specs.Ways.{partner, way_of_direction};
ghost use Rattle.offers.specs.Placing.{Placing, with_places};
ghost use Rattle.offers.specs.Passes.{as_offer};
ghost use Rattle.offers.specs.Electing.{Electing, with_offers};
ghost use Rattle.offers.specs.Steps.{ranked_offer, Fair, Considered};

use ends::Roster;
use network::WORDS_PER_LINK;
use pass::Pass;
use rules::TypeLength;

// Kept (a): a count n beside a table or list, not a slice cut to it: `lay_fresh_lines`, `place_ends` and `elect_links` are public, and
// their clauses speak of n (`take n list`, `Placing .. list n ..`, `Electing .. n`).

mod ends;
mod fresh;
mod pass;
pub mod scratch;

// A direction with its ends as places among the ascending ASes, its kind seen from the hearer, and its cost.
// Kept (a): the kind is a number, as `extend_type` takes it and as its clauses and those of `way_at` and `consider` say.
#[derive(Clone, Copy, Debug, PartialEq, Eq)]
pub struct Way {
    pub hearer: usize,
    pub neighbour: usize,
    pub kind: u32,
    pub cost: u32,
}

// An offer: a pair, its rank among equal ones, and the next hop that it stands for.
#[derive(Clone, Copy, Debug, PartialEq, Eq)]
pub struct Offered {
    pub pair: TypeLength,
    pub rank: u32,
    pub next: u32,
}

impl Offered {
    // Smaller type wins, then smaller length, then smaller rank.
    // Kept (a): one comparison without branches, in which length and rank count where the types are equal. Speed is part of the product:
    // with `==` on pairs, then `<`, a pass over networks that change from call to call took a seventh longer (14.7 for 12.8 microseconds).
    pub fn wins(self, other: Offered) -> bool
        ensures { result ≡ better (as_offer self) (as_offer other) }
    {
        let mine = length_rank(self.pair.length, self.rank);
        let tie = u64::from(mine < length_rank(other.pair.length, other.rank));
        u64::from(self.pair.typ) < u64::from(other.pair.typ) + tie
    }
}

// Length and rank as one number: the rank is its low half.
fn length_rank(length: u32, rank: u32) -> u64
    ensures { (result ≡ 4294967296 * length + rank) × (rank < 4294967296) }
{
    4294967296 * u64::from(length) + u64::from(rank)
}

// Words per table entry: number, type, length, next hop.
// Kept (a): an index beside a table in each of these functions, and the clause `4 * i + 4 ≤ length t`: they are public with it, and a table is
// words that callers lend (`&mut [u32]`), not a slice of entries.
pub const WORDS_PER_ENTRY: usize = 4;

// The AS of entry i.
pub fn number_at(t: &[u32], i: usize) -> u32
    requires { 4 * i + 4 ≤ length t.now }
    ensures { result ≡ number_word t.now i }
{
    t[WORDS_PER_ENTRY * i]
}

// The pair of entry i.
pub fn pair_at(t: &[u32], i: usize) -> TypeLength
    requires { 4 * i + 4 ≤ length t.now }
    ensures { result ≡ entry_pair t.now i }
{
    let at = WORDS_PER_ENTRY * i;
    TypeLength {
        typ: t[at + 1],
        length: t[at + 2],
    }
}

// The next hop of entry i.
pub fn next_at(t: &[u32], i: usize) -> u32
    requires { 4 * i + 4 ≤ length t.now }
    ensures { result ≡ next_word t.now i }
{
    t[WORDS_PER_ENTRY * i + 3]
}

// Entry i gets a line; its number stays.
pub fn put_line(t: &mut [u32], i: usize, pair: TypeLength, next: u32)
    requires { 4 * i + 4 ≤ length t.old }
    ensures { t.new ≡ with_line t.old i (record { pair = pair; next = next }) }
{
    let at = WORDS_PER_ENTRY * i;
    t[at + 1] = pair.typ;
    t[at + 2] = pair.length;
    t[at + 3] = next;
}

// The lines of the first n ASes of a list before anything is told: the destination has its own, every other AS is unreachable.
pub fn lay_fresh_lines(table: &mut [u32], list: &[u32], n: usize, destination: u32)
    requires { (4 * n ≤ length table.old) × (n ≤ length list.now) }
    ensures { table.new ≡ table_of (fresh_lines destination) (take n list.now) ++ drop (4 * n) table.old }
{
    fresh::lay_entries(
        table,
        n,
        |i| (list[i], fresh::first_pair(list[i], destination)),
    );
}

// Where the ends of the links stand among their ASes, which are the first n words of a list: two words per link, a's place and b's.
#[tactic(auto, using(network::proofs::PrefixLaws::count, crate::proofs::EndLaws::ends_none))]
pub fn place_ends(words: &[u32], list: &[u32], n: usize, places: &mut [u32])
    requires { Placing words.now list.now n places.old }
    ensures { places.new ≡ with_places (links_of words.now) places.old }
{
    let ases = &list[..n];
    let mut hints = [0u32; 2048];
    ends::put_hints(ases, &mut hints);
    let roster = Roster {
        words,
        ases,
        hints: &hints,
    };
    for i in 0..words.len() / WORDS_PER_LINK {
        roster.place_link(i, places);
    }
}

// The other direction of the same link.
pub fn partner(k: usize) -> usize
    requires { k < 18446744073709551615 }
    ensures { result ≡ partner k }
{
    if k % 2 == 0 { k + 1 } else { k - 1 }
}

// Direction k: 2i from a to b of link i, 2i + 1 from b to a.
#[tactic(auto, using(crate::proofs::WayLaws::way_words))]
pub fn way_at(words: &[u32], places: &[u32], k: usize) -> Way
    requires { HasLink words.now (k / 2) × (2 * (k / 2) + 2 ≤ length places.now) }
    ensures { result ≡ way_of_direction (links_of words.now) places.now k }
{
    let link = network::link_at(words, k / 2);
    Way {
        hearer: ends::place_at(places, partner(k)),
        neighbour: ends::place_at(places, k),
        kind: ends::kind_over(link, k),
        cost: 1,
    }
}

// The offer that a line stands for: of equal pairs the smaller next hop is better. Type 4 is unreachable, a number as in `rules`.
pub fn offer_of(pair: TypeLength, next: u32) -> Offered
    ensures { result ≡ ranked_offer pair next }
{
    let rank = if pair.typ < 4 { next } else { 0 };
    Offered { pair, rank, next }
}

// The better of the best offer so far and what a neighbour, numbered `from` and with the pair that it told, offers over a direction.
#[tactic(auto, using(crate::proofs::ConsiderLaws::considered, crate::proofs::ConsiderLaws::choose_new, crate::proofs::ConsiderLaws::choose_old))]
pub fn consider(best: Offered, way: Way, from: u32, told: TypeLength) -> Offered
    requires { (told.length + way.cost < 4294967296) × Fair best }
    ensures { Considered best way from told result }
{
    let new = offer_of(told.extended(way.kind, way.cost), from);
    if new.wins(best) { new } else { best }
}

// Every AS's line as the best offer that the first n lines of a table give it, the others as told. One pass over the links.
#[tactic(auto, using(network::proofs::PrefixLaws::count, crate::proofs::PassLaws::hearing, crate::proofs::PassLaws::heard_next))]
pub fn elect_links(words: &[u32], places: &[u32], told: &[u32], best: &mut [u32], n: usize)
    requires { Electing (links_of words.now) places.now told.now n × (4 * n ≤ length best.old) }
    ensures { best.new ≡ with_offers (links_of words.now) told.now n best.old }
{
    fresh::lay_entries(best, n, |i| (number_at(told, i), TypeLength::UNREACHABLE));
    let pass = Pass {
        words,
        places,
        told,
    };
    for i in 0..words.len() / WORDS_PER_LINK {
        pass.hear(best, 2 * i);
        pass.hear(best, 2 * i + 1);
    }
}
