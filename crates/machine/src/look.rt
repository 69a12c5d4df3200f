// What a run is asked: the refusals in their order, each before a lent word is written, and then the run.
ghost use Rattle.std.specs.Prelude.{◌≡◌, ◌≤◌, ◌<◌, length, MatchOption};
ghost use Rattle.std.specs.List.{AllWithin, HoldsAt};
ghost use Rattle.machine.specs.Entries.{fault_of_choices};
ghost use Rattle.machine.specs.Answers.{Located};

use super::state::{BLOCKS, Machine};
use super::{Counts, Ran, room, start};
use network::Network;
use offers::WORDS_PER_ENTRY;
use rules::{Refusal, TypeLength};

// Where the first choice stands that is no direction.
fn first_fault(choices: &[u32], directions: usize) -> Option<usize>
    ensures { MatchOption result (AllWithin (λ k. k < directions) choices.now 0 (length choices.now)) (λ i. (i < length choices.now) × HoldsAt (λ k. directions ≤ k) choices.now i × AllWithin (λ k. k < directions) choices.now 0 i) }
{
    choices.iter().position(|k| directions <= *k as usize)
}

// Refusal 13: the first choice that is no direction.
fn choice_fault(choices: &[u32], directions: usize) -> Result<(), Refusal>
    ensures { result ≡ fault_of_choices directions choices.now }
{
    match first_fault(choices, directions) {
        Some(i) => Err(Refusal::NoDirection(i)),
        None => Ok(()),
    }
}

// An order for a run: an accepted network, its ASes in ascending order, the destination's place among them, the choices, and so many
// further deliveries.
// Kept (d): network and ASes with the fact `listed`, as in sheet (`Draft`), judge (`Printed`) and table (`Question`): a public type of
// `network` for both would need a maker that lends the list and repeats the clause of `list_ases`, and each of these structs would still be
// built once and read through one field more.
#[derive(Clone, Copy, Debug, PartialEq, Eq)]
pub struct Order<'a> {
    pub net: Network<'a>,
    pub ases: &'a [u32],
    pub destination: usize,
    pub choices: &'a [u32],
    pub further: u32,
    ghost located: { Located net.words.now ases.now destination choices.now further },
}

// Kept (d): table and room go on side by side, here and in start.rt: a struct of the two would need a clause for each one's loan in every
// function.
impl<'a> Order<'a> {
    ghost use Rattle.std.specs.Prelude.{◌≡◌, length, Ok};
    ghost use Rattle.network.specs.Promises.{count_of};
    ghost use Rattle.machine.specs.Answers.{fault_of_memory, MemoryAnswer, Driven};

    // Refusals 8 and 13, of so many words of table and room.
    fn fits(self, table: usize, room: usize) -> Result<(), Refusal>
        ensures { result ≡ fault_of_memory self.entry.net.words.now self.entry.choices.now table room }
    {
        if table < WORDS_PER_ENTRY * self.ases.len() {
            return Err(Refusal::OutputShort);
        }
        let links = self.net.links();
        if room < network::room_need(links, self.ases.len()) {
            return Err(Refusal::RoomShort);
        }
        choice_fault(self.choices, 2 * links)
    }

    // The run of an order that fits: the fresh start, the choices, the further deliveries.
    fn drive(self, table: &mut [u32], room: &mut [u32]) -> Ran
        requires { fault_of_memory self.net.words.now self.choices.now (length table.old) (length room.old) ≡ Ok tt }
        ensures { Driven self.entry.net.words.now (count_of self.entry.net.words.now) self.entry.destination self.entry.choices.now self.entry.further table.old result table.new room.new }
    {
        start::lay_out(self, table, room);
        let links = self.net.links();
        let mut machine = Machine {
            words: self.net.words,
            links,
            destination: self.destination,
            table,
            room,
            flags: [false; BLOCKS],
        };
        machine.send(self.destination, room::pack_pair(TypeLength::ORIGIN));
        let chosen = machine.take_choices(self.choices);
        let Counts { made, idle } = machine.go_on(self.further, chosen);
        let quiet = machine.first_waiting().is_none();
        Ran { made, idle, quiet }
    }

    // The whole answer. The room is cleared.
    pub fn answer(self, table: &mut [u32], room: &mut [u32]) -> Result<Ran, Refusal>
        ensures { MemoryAnswer self.entry.net.words.now self.entry.destination self.entry.choices.now self.entry.further table.old room.old result table.new room.new }
    {
        self.fits(table.len(), room.len())?;
        let ran = self.drive(table, room);
        room.fill(0);
        Ok(ran)
    }
}
