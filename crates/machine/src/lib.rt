// The message machine: a run over a list of choices and so many further deliveries.
#![tactic(auto, unfolding(rules::specs::Offers::elect))]

ghost use Rattle.rules.specs.Checks.{base_limits};
ghost use Rattle.machine.specs.Answers.{Answered};

use look::Order;
use network::Network;
use rules::{Limits, Refusal};

mod index;
mod look;
mod room;
mod runs;
mod start;
mod state;
mod steps;

// What a run gives: deliveries made, idle choices, quiet or not.
// Kept (a): counts and flag in one result, as `run_reply` and the theorem `quiet_stable_table` say it, and as customers named it
// (docs/DECISIONS.md).
#[derive(Clone, Copy, Debug, PartialEq, Eq)]
pub struct Ran {
    pub made: usize,
    pub idle: usize,
    pub quiet: bool,
}

// Deliveries made and idle choices so far.
// Kept (d): `Ran` without `quiet`: while choices are taken nobody knows it, so that one type for both would be made with a `quiet` that
// says nothing (`take_choices`, `go_on`).
#[derive(Clone, Copy, Debug, PartialEq, Eq)]
pub struct Counts {
    pub made: usize,
    pub idle: usize,
}

// At most so many choices, and so many further deliveries.
pub const MOST_CHOICES: usize = 65536;

pub const MOST_DELIVERIES: u32 = 65536;

// The choices are delivered in their order, then the lowest waiting direction until nothing waits or the further deliveries are used.
// The table gets the lines of that moment, four words per AS, and the room is cleared.
// Kept (a): six parameters: `run` is public, with its clause `Answered`; inside, words, destination, choices and further deliveries are one
// `Order`.
pub fn run(
    words: &[u32],
    destination: u32,
    choices: &[u32],
    further: u32,
    table: &mut [u32],
    room: &mut [u32],
) -> Result<Ran, Refusal>
    ensures { Answered base_limits words.now destination choices.now further table.old room.old result table.new room.new }
{
    if MOST_CHOICES < choices.len() || MOST_DELIVERIES < further {
        return Err(Refusal::OverLimit);
    }
    let net = Network::check(words)?;
    let mut list = [0u32; Limits::BASE.ases];
    let n = network::list_ases(net.words, &mut list);
    let place = network::place_of(&list, n, destination).ok_or(Refusal::NoDestination)?;
    let order = Order {
        net,
        ases: &list[..n],
        destination: place,
        choices,
        further,
    };
    order.answer(table, room)
}
