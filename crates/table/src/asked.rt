// What is asked of an accepted network, and how it is answered.
ghost use Rattle.std.specs.Prelude.{◌≡◌, true, eqb};
ghost use Rattle.rules.specs.Lists.{any_of};
ghost use Rattle.rules.specs.Network.{links_of, ases_of};

use crate::due::Best;
use crate::{phases, quick};
use network::Network;
use offers::WORDS_PER_ENTRY;
use rules::Refusal;

// A question: an accepted network, its ASes in ascending order, and the destination, which is one of them.
// Kept (d): network and ASes with the fact `listed`, as in sheet (`Draft`), judge (`Printed`) and machine (`Order`): a public type of
// `network` for both would need a maker that lends the list and repeats the clause of `list_ases`, and each of these structs would still be
// built once and read through one field more.
#[derive(Clone, Copy, Debug, PartialEq, Eq)]
pub struct Question<'a> {
    network: Network<'a>,
    ases: &'a [u32],
    destination: u32,
    ghost listed: { ases.now ≡ ases_of (links_of network.words.now) },
    ghost member: { any_of (eqb destination) ases.now ≡ true },
}

impl<'a> Question<'a> {
    ghost use Rattle.std.specs.Prelude.{◌*◌, ◌≤◌, ◌≡◌, length, replicate, Err, MatchResult};
    ghost use Rattle.rules.specs.Network.{links_of, ases_of};
    ghost use Rattle.rules.specs.Entry.{fault_of_destination};
    ghost use Rattle.offers.specs.Steps.{Placed};
    ghost use Rattle.table.specs.Entries.{Filled};
    ghost use Rattle.table.specs.Steps.{fault_of_sizes, Fits, Tried, Agreed};

    // A question about a network whose ASes are listed; or refusal 7.
    pub fn new(
        network: Network<'a>,
        ases: &'a [u32],
        destination: u32,
    ) -> Result<Question<'a>, Refusal>
        requires { ases.now ≡ ases_of (links_of network.words.now) }
        ensures { MatchResult result (λ q. (q.network.words.now ≡ network.entry.words.now) × (q.ases.now ≡ ases.now) × (q.destination ≡ destination)) (λ e. fault_of_destination destination ases.now ≡ Err e) }
    {
        network::place_of(ases, ases.len(), destination).ok_or(Refusal::NoDestination)?;
        Ok(Question {
            network,
            ases,
            destination,
        })
    }

    // Refusal 8 of so many words of table and room.
    pub fn fits(self, table: usize, room: usize) -> Result<(), Refusal>
        ensures { result ≡ fault_of_sizes self.entry.network.words.now self.entry.ases.now table room }
    {
        let n = self.ases.len();
        if table < WORDS_PER_ENTRY * n {
            return Err(Refusal::OutputShort);
        }
        if room < network::room_need(self.network.links(), n) {
            return Err(Refusal::RoomShort);
        }
        Ok(())
    }

    // A guess at the lines. The places of the links' ends are left in the room.
    fn guess_lines(self, table: &mut [u32], room: &mut [u32])
        requires { Fits self.network.words.now self.ases.now (length table.old) (length room.old) }
        ensures { Tried (links_of self.entry.network.words.now) self.entry.ases.now table.old table.new room.new }
    {
        let n = self.ases.len();
        offers::lay_fresh_lines(table, self.ases, n, self.destination);
        offers::place_ends(self.network.words, self.ases, n, room);
        quick::guess_pairs(self.network, room, table, n);
    }

    // Kept (d): the length of `best` in three clauses. As a field it would be one ghost fact, and each method would have to say instead that it
    // keeps the loan.
    // The lines as they settle without a guess, whatever the table has, and the best offers under them.
    fn settle_lines(self, table: &mut [u32], places: &[u32], best: &mut [u32])
        requires { (4 * length self.ases.now ≤ length table.old) × Placed (links_of self.network.words.now) places.now × (4 * length self.ases.now ≤ length best.old) }
        ensures { Agreed (links_of self.entry.network.words.now) self.entry.destination self.entry.ases.now table.old table.new best.new }
    {
        let n = self.ases.len();
        offers::lay_fresh_lines(table, self.ases, n, self.destination);
        phases::settle(self.network, places, table, (n - 1) as u32);
        offers::elect_links(self.network.words, places, table, best, n);
    }

    // The best offers to the destination.
    fn best(self, offers: &[u32]) -> Best<'_>
        ensures { (result.offers.now ≡ offers.now) × (result.destination ≡ self.entry.destination) }
    {
        Best {
            offers,
            destination: self.destination,
        }
    }

    // Lines that are due, each under the others, and the best offers under them: those of the table, if the election gives them again,
    // and else the settled ones. So rightness rests on the election, and the guess is for speed alone.
    fn choose_lines(self, table: &mut [u32], places: &[u32], best: &mut [u32])
        requires { (4 * length self.ases.now ≤ length table.old) × Tried (links_of self.network.words.now) self.ases.now table.old table.old places.now × (4 * length self.ases.now ≤ length best.old) }
        ensures { Agreed (links_of self.entry.network.words.now) self.entry.destination self.entry.ases.now table.old table.new best.new }
    {
        let n = self.ases.len();
        offers::elect_links(self.network.words, places, table, best, n);
        if !self.best(best).agrees(table, n) {
            self.settle_lines(table, places, best);
        }
    }

    // The whole table. The best offers are found in a table that is lent for them, and the room is cleared.
    pub fn answer(self, table: &mut [u32], room: &mut [u32], best: &mut [u32])
        requires { Fits self.network.words.now self.ases.now (length table.old) (length room.old) × (4 * length self.ases.now ≤ length best.old) }
        ensures { Filled (links_of self.entry.network.words.now) self.entry.destination table.old table.new × (room.new ≡ replicate (length room.old) 0) }
    {
        self.guess_lines(table, room);
        self.choose_lines(table, room, best);
        self.best(best).put_hops(table, self.ases.len());
        room.fill(0);
    }
}
