// The three phases by one pass: phase f gives lines of type f, over one direction after the other, until a pass changes nothing.
// Kept (a): a phase is a number, since it is the type of the lines that it gives, and `TypeLength::typ` of the crate rules is one.
ghost use Rattle.std.specs.Prelude.{◌*◌, ◌≡◌, length};
ghost use Rattle.rules.specs.Network.{links_of};
ghost use Rattle.table.specs.Phases.{offered_at, gains, Joins, Taken, Ready, Phased};

use network::Network;
use offers::Way;
use rules::TypeLength;

// The pair that a direction gives its hearer.
fn offered(table: &[u32], way: Way) -> TypeLength
    requires { Joins table.now way }
    ensures { result ≡ offered_at table.now way }
{
    offers::pair_at(table, way.neighbour).extended(way.kind, way.cost)
}

// Whether an offered pair is of the phase's type, within the cap, and better than an AS's own. The tests are joined
// without a branch.
// Kept (d): phase and cap side by side, here and in `take_offer`: a struct for them would spare each of the two functions one parameter.
#[tactic(auto, unfolding(rules::specs::Pairs::beats_of))]
fn gains(pair: TypeLength, own: TypeLength, phase: u32, cap: u32) -> bool
    ensures { result ≡ gains phase cap pair own }
{
    ((pair.typ == phase) & (pair.length <= cap)) & (pair < own)
}

// The hearer of a direction takes the pair that it is offered if it gains by it. Whether it does.
fn take_offer(table: &mut [u32], way: Way, phase: u32, cap: u32) -> bool
    requires { Joins table.old way }
    ensures { Taken phase cap table.old way table.new result }
{
    let pair = offered(table, way);
    let gained = gains(pair, offers::pair_at(table, way.hearer), phase, cap);
    if gained {
        let next = offers::next_at(table, way.hearer);
        offers::put_line(table, way.hearer, pair, next);
    }
    gained
}

// A table that settles: the network, the places of the links' ends, the table of its ASes, and a cap on the lengths in it.
#[derive(Drop)]
struct Settling<'a> {
    network: Network<'a>,
    places: &'a [u32],
    table: &'a mut [u32],
    cap: u32,
    ghost ready: { Ready network.words.now places.now cap table.now },
}

impl<'a> Settling<'a> {
    ghost use Rattle.std.specs.Prelude.{◌*◌, ◌<◌, ◌≡◌, length};
    ghost use Rattle.rules.specs.Network.{links_of};
    ghost use Rattle.offers.specs.Ways.{way_of_direction};
    ghost use Rattle.table.specs.Phases.{Taken, Passed, Settled, Phased};
    ghost use Rattle.table.specs.PhaseSteps.{Stays};

    // The same over direction k.
    fn offer(&mut self, k: usize, phase: u32) -> bool
        requires { k < 2 * length (links_of self.old.network.words.now) }
        ensures stays { Stays self.old self.new }
        ensures taken { Taken phase self.old.cap self.old.table.now (way_of_direction (links_of self.old.network.words.now) self.old.places.now k) self.new.table.now result }
    {
        let way = offers::way_at(self.network.words, self.places, k);
        take_offer(self.table, way, phase, self.cap)
    }

    // One pass over all directions. Whether it changed anything.
    fn pass(&mut self, phase: u32) -> bool
        ensures stays { Stays self.old self.new }
        ensures passed { Passed (links_of self.old.network.words.now) self.old.places.now (2 * length (links_of self.old.network.words.now)) phase self.old.cap self.old.table.now self.new.table.now result }
    {
        let mut changed = false;
        for k in 0..2 * self.network.links() {
            changed |= self.offer(k, phase);
        }
        changed
    }

    // Passes until one changes nothing.
    fn run(&mut self, phase: u32)
        ensures stays { Stays self.old self.new }
        ensures settled { Settled (links_of self.old.network.words.now) self.old.places.now phase self.old.cap self.old.table.now self.new.table.now }
    {
        while self.pass(phase) {}
    }

    // Customer lines, then peer lines, then provider lines.
    fn run_all(&mut self)
        ensures loan { self.new.table.ghost_name ≡ self.old.table.ghost_name }
        ensures phased { Phased (links_of self.old.network.words.now) self.old.places.now self.old.cap self.old.table.now 4 self.new.table.now }
    {
        for phase in 1..=3 {
            self.run(phase);
        }
    }
}

// The lines of a table as they settle, where no length in it goes above the cap.
pub fn settle(network: Network<'_>, places: &[u32], table: &mut [u32], cap: u32)
    requires { Ready network.words.now places.now cap table.old }
    ensures { Phased (links_of network.entry.words.now) places.now cap table.old 4 table.new }
{
    let mut settling = Settling {
        network,
        places,
        table,
        cap,
    };
    settling.run_all();
}
