// A delivery, step by step: the waiting pair moves to held, the receiver's line becomes the one that it elects anew, and it tells of a change.
use super::room::{self, Part};
use super::state::Machine;
use offers::{Offered, Way};
use rules::TypeLength;

impl<'a> Machine<'a> {
    ghost use Rattle.std.specs.Prelude.{◌+◌, ◌*◌, ◌≤◌, ◌<◌, ◌≡◌, length};
    ghost use Rattle.rules.specs.Network.{links_of};
    ghost use Rattle.rules.specs.Offers.{best};
    ghost use Rattle.offers.specs.Electing.{entry_offer};
    ghost use Rattle.offers.specs.Passes.{as_offer};
    ghost use Rattle.offers.specs.Steps.{Fair};
    ghost use Rattle.offers.specs.Ways.{way_of_direction};
    ghost use Rattle.machine.specs.Room.{pair_word, pair_of, held_word, hearer_word, net_of, ases_in, as_at};
    ghost use Rattle.machine.specs.Steps.{held_over, Heard, held_offer};
    ghost use Rattle.machine.specs.States.{Stays, Moves, Takes, Amends, Delivers};

    // The offer that the line of the AS at a place stands for.
    fn standing(&self, place: usize) -> Offered
        requires { place < ases_in self.now.words.now }
        ensures { result ≡ entry_offer self.now.table.now place }
    {
        offers::offer_of(
            offers::pair_at(self.table, place),
            offers::next_at(self.table, place),
        )
    }

    // Direction k, with the places of its ends.
    fn way(&self, k: usize) -> Way
        requires { k < 2 * self.now.links }
        ensures { result ≡ way_of_direction (links_of self.now.words.now) self.now.room.now k }
    {
        offers::way_at(self.words, self.room, k)
    }

    // The pair that is held on direction k.
    fn held(&self, k: usize) -> TypeLength
        requires { k < 2 * self.now.links }
        ensures { result ≡ pair_of (held_word self.now.links self.now.room.now k) }
    {
        room::unpack_pair(self.word(Part::Held, k))
    }

    // What is offered over direction k, which is a way, with the pair held there.
    fn offered(&self, k: usize, way: Way) -> Offered
        requires direction { k < 2 * self.now.links }
        requires way { (4 * way.neighbour + 4 ≤ length self.now.table.now) × (way.cost ≤ 1) }
        ensures { result ≡ held_offer self.now.links self.now.table.now self.now.room.now k way }
    {
        let from = offers::number_at(self.table, way.neighbour);
        let told = self.held(k);
        offers::offer_of(told.extended(way.kind, way.cost), from)
    }

    // The better of an offer and what is heard over direction k.
    fn hear(&self, k: usize, best: Offered) -> Offered
        requires direction { k < 2 * self.now.links }
        requires fair { Fair best }
        ensures { Heard self.now.words.now self.now.links self.now.room.now (hearer_word self.now.room.now k) k best result }
    {
        let way = self.way(k);
        let from = offers::number_at(self.table, way.neighbour);
        let told = self.held(k);
        offers::consider(best, way, from, told)
    }

    // The best of what the AS at a place hears over all its directions.
    fn elected(&self, place: usize) -> Offered
        requires { place < ases_in self.now.words.now }
        ensures { as_offer result ≡ best (held_over self.now.links self.now.room.now) (as_at self.now.words.now place) (net_of self.now.words.now) }
    {
        let number = offers::number_at(self.table, place);
        let mut best = offers::offer_of(TypeLength::UNREACHABLE, number);
        let mut k = self.word(Part::Heads, place) as usize;
        // Kept (d): a walk as in `send`. An iterator for this one loop would be a struct of the room, the links and k, with the index as its
        // ghost fact, and a `next` with this very test: more lines than the loop.
        while k < 2 * self.links {
            best = self.hear(k, best);
            k = self.word(Part::Nexts, k) as usize;
        }
        best
    }

    // The AS at a place, whose pair was old, takes the line of an offer. If its type or length changed it sends the new pair to every
    // neighbour; a changed next hop alone sends nothing.
    fn take_line(&mut self, place: usize, old: TypeLength, best: Offered)
        requires place { place < ases_in self.old.words.now }
        requires word { pair_word best.pair < 4294967296 }
        ensures stays { Stays self.old self.new }
        ensures takes { Takes self.old place old best self.new }
    {
        let pair = best.pair;
        offers::put_line(self.table, place, pair, best.next);
        if old != pair {
            self.send(place, room::pack_pair(pair));
        }
    }

    // The pair held on direction k, which is a way, has changed since its hearer elected its line. A better offer becomes the line; where
    // the line rests on the same neighbour the hearer elects anew; else the line stays, and nothing is sent.
    fn amend(&mut self, k: usize, way: Way)
        requires direction { k < 2 * self.old.links }
        requires way { way ≡ way_of_direction (links_of self.old.words.now) self.old.room.now k }
        ensures stays { Stays self.old self.new }
        ensures amends { Amends self.old k way.hearer self.new }
    {
        let standing = self.standing(way.hearer);
        let new = self.offered(k, way);
        if new.wins(standing) {
            self.take_line(way.hearer, standing.pair, new);
        } else if standing.next == new.next {
            let best = self.elected(way.hearer);
            self.take_line(way.hearer, standing.pair, best);
        }
    }

    // The pair that waits on direction k is held there, and nothing waits.
    fn move_waiting(&mut self, k: usize)
        requires { k < 2 * self.old.links }
        ensures stays { Stays self.old self.new }
        ensures moves { Moves self.old k self.new }
    {
        let word = self.word(Part::Waiting, k);
        room::put_word(self.room, self.links, Part::Held, k, word);
        room::put_word(self.room, self.links, Part::Waiting, k, room::NOTHING);
    }

    // The pair that waits on direction k is delivered. The destination never changes its line.
    pub fn deliver(&mut self, k: usize)
        requires { k < 2 * self.old.links }
        ensures stays { Stays self.old self.new }
        ensures delivers { Delivers self.old k self.new }
    {
        self.move_waiting(k);
        let way = self.way(k);
        if way.hearer != self.destination {
            self.amend(k, way);
        }
    }
}
