// The pairs of the table, guessed quickly: by phase, and within a phase by length. Nothing is proved of their rightness, only that
// nothing but pairs changes: rightness rests on the election that judges them (`choose_lines` in asked.rt), and speed on this guess.
ghost use Rattle.std.specs.Prelude.{◌*◌, ◌≤◌, length};
ghost use Rattle.table.specs.Guess.{Guessing, Guessed};

use crate::notes::{self, End, Noted, Pass};
use network::Network;
use rules::TypeLength;

// A guess at work: where the ends of the links stand, the links that are noted for its pass, the table with its first n entries, and
// the ASes that wait to tell.
// Kept (d): n beside the table: with `&mut table[..4 * n]` as the field, n would be `self.table.len() / WORDS_PER_ENTRY` at each of its places.
#[derive(Drop)]
struct Guess<'a> {
    places: &'a [u32],
    index: &'a [u32],
    table: &'a mut [u32],
    shelf: &'a mut [u32],
    n: usize,
    pass: Pass,
    ghost guessing: { Guessing n table.now },
}

// Kept (d): `place < n` in three contracts: a type for a place would have to carry n, and each call to show that it is this guess's.
impl<'a> Guess<'a> {
    ghost use Rattle.std.specs.Prelude.{◌<◌, ◌≡◌, IfSome};
    ghost use Rattle.offers.specs.Lines.{entry_pair, next_word};
    ghost use Rattle.table.specs.GuessSteps.{Keeps};

    // The pair of the AS at a place.
    fn pair_at(&self, place: usize) -> TypeLength
        requires { place < self.now.n }
        ensures { result ≡ entry_pair self.now.table.now place }
    {
        offers::pair_at(self.table, place)
    }

    // Its next hop.
    fn next_at(&self, place: usize) -> u32
        requires { place < self.now.n }
        ensures { result ≡ next_word self.now.table.now place }
    {
        offers::next_at(self.table, place)
    }

    // Whether no AS waits with a length.
    fn nobody_waits(&self, length: usize) -> bool {
        notes::is_empty(self.shelf, length)
    }

    // What the AS at a place tells as a line of a type: one longer than its own, as far as lengths stay below n.
    fn told(&self, teller: usize, typ: u32) -> Option<TypeLength>
        ensures { IfSome result (λ pair. (teller < self.now.n) × (pair.length < self.now.n)) }
    {
        if self.n <= teller {
            return None;
        }
        let length = self.pair_at(teller).length + 1;
        ((length as usize) < self.n).then_some(TypeLength { typ, length })
    }

    // The AS at a place takes a pair.
    fn take(&mut self, place: usize, pair: TypeLength)
        requires { (place < self.old.n) × (pair.length < self.old.n) }
        ensures { Keeps self.old self.new }
    {
        let next = self.next_at(place);
        offers::put_line(self.table, place, pair, next);
    }

    // It takes a pair if it is unreachable, and waits to tell it on.
    #[tactic(auto, using(crate::proofs::GuessLaws::guess_steps))]
    fn tell(&mut self, hearer: u32, pair: TypeLength)
        requires { pair.length < self.old.n }
        ensures { Keeps self.old self.new }
    {
        let place = hearer as usize;
        if place < self.n && self.pair_at(place).typ == 4 {
            self.take(place, pair);
            notes::push(self.shelf, hearer, pair.length as usize);
        }
    }

    // The AS at a place tells what it has to the hearers of its links.
    #[tactic(auto, using(crate::proofs::GuessLaws::guess_steps))]
    fn tell_from(&mut self, teller: u32)
        ensures { Keeps self.old self.new }
    {
        let Some(pair) = self.told(teller as usize, self.pass.typ()) else {
            return;
        };
        let (places, end) = (self.places, self.pass.hearer());
        for link in Noted::under(self.index, notes::head_of(teller)) {
            self.tell(notes::place_of(places, link, end), pair);
        }
    }

    // The ASes that wait with a length tell, at most n of them.
    #[tactic(auto, using(crate::proofs::GuessLaws::guess_steps))]
    fn tell_length(&mut self, length: usize)
        ensures { Keeps self.old self.new }
    {
        for _ in 0..self.n {
            let Some(teller) = notes::pop(self.shelf, length) else {
                return;
            };
            self.tell_from(teller);
        }
    }

    // Every AS that has a line waits to tell it.
    #[tactic(auto, using(crate::proofs::GuessLaws::guess_steps))]
    fn wait_all(&mut self)
        ensures { Keeps self.old self.new }
    {
        for i in 0..self.n {
            let pair = self.pair_at(i);
            if pair.typ < 4 {
                notes::push(self.shelf, i as u32, pair.length as usize);
            }
        }
    }

    // All that is told over the links of the pass, from short lengths to long ones, as far as somebody waits: lengths have no gaps.
    #[tactic(auto, using(crate::proofs::GuessLaws::guess_steps))]
    fn tell_all(&mut self)
        ensures { Keeps self.old self.new }
    {
        self.wait_all();
        for length in 0..self.n {
            if self.nobody_waits(length) {
                return;
            }
            self.tell_length(length);
        }
    }

    // The AS at one place hears its peer at another, which tells a customer route alone.
    #[tactic(auto, using(crate::proofs::GuessLaws::guess_steps))]
    fn hear_peer(&mut self, hearer: usize, teller: usize)
        ensures { Keeps self.old self.new }
    {
        let Some(pair) = self.told(teller, 2) else {
            return;
        };
        if hearer < self.n {
            let told = self.pair_at(teller).typ == 1;
            if told & (pair < self.pair_at(hearer)) {
                self.take(hearer, pair);
            }
        }
    }

    // The ends of all peer links hear each other.
    #[tactic(auto, using(crate::proofs::GuessLaws::guess_steps))]
    fn hear_peers(&mut self)
        ensures { Keeps self.old self.new }
    {
        for link in Noted::under(self.index, notes::PEERS) {
            let a = notes::place_of(self.places, link, End::A) as usize;
            let b = notes::place_of(self.places, link, End::B) as usize;
            self.hear_peer(a, b);
            self.hear_peer(b, a);
        }
    }
}

// Kept (d): network, places, table and n side by side in `guess_pass` and `guess_pairs` alone: a `Guess` holds all but the network from
// there on, and a struct of the four would be made once, to be taken apart in two lines.
// All that is told over customer links, and then over peer links; or all that is told over provider links.
fn guess_pass(network: Network<'_>, places: &[u32], table: &mut [u32], n: usize, pass: Pass)
    requires { Guessing n table.old }
    ensures { Guessed n table.old table.new }
{
    let mut index = [0u32; notes::INDEX];
    let mut shelf = [0u32; notes::SHELF];
    notes::note_links(network, places, &mut index, pass);
    let mut guess = Guess {
        places,
        index: &index,
        table,
        shelf: &mut shelf,
        n,
        pass,
    };
    guess.tell_all();
    if pass == Pass::Up {
        guess.hear_peers();
    }
}

// Whether one of the first n entries is unreachable.
fn any_open(table: &[u32], n: usize) -> bool
    requires { 4 * n ≤ length table.now }
{
    (0..n).any(|i| offers::pair_at(table, i).typ == 4)
}

// The pairs of all n lines, from those that are there: over customer links, then peer links, then provider links, if somebody is left to
// hear of them.
pub fn guess_pairs(network: Network<'_>, places: &[u32], table: &mut [u32], n: usize)
    requires { Guessing n table.old }
    ensures { Guessed n table.old table.new }
{
    guess_pass(network, places, table, n, Pass::Up);
    if any_open(table, n) {
        guess_pass(network, places, table, n, Pass::Down);
    }
}
