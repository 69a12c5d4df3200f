// The stable table for one destination: one table, the only one in which every line is the best offer.
#![tactic(auto, unfolding(rules::specs::Network::links_of))]

ghost use Rattle.std.specs.Prelude.{◌≡◌, Ok};
ghost use Rattle.rules.specs.Checks.{base_limits};
ghost use Rattle.rules.specs.Entry.{fault_of_links};
ghost use Rattle.table.specs.Entries.{Tabled};

use asked::Question;
use network::Network;
use offers::WORDS_PER_ENTRY;
use rules::{Limits, Refusal};

mod asked;
mod due;
mod notes;
mod phases;
mod quick;

// The stable table of accepted links, or refusal 7 or 8. The lists of ASes and of best offers hold 512 ASes.
// Kept (a): public, so that link words with a clause stand here, where the rest of the crate takes a `Network`.
// Kept (a): four parameters, here and in `stable_table`, since both are public; inside they are a `Question`, and table and room, which are
// lent.
pub fn accepted_table(
    words: &[u32],
    destination: u32,
    table: &mut [u32],
    room: &mut [u32],
) -> Result<(), Refusal>
    requires { fault_of_links base_limits words.now ≡ Ok tt }
    ensures { Tabled base_limits words.now destination table.old room.old result table.new room.new }
{
    let mut list = [0u32; Limits::BASE.ases];
    let ases = network::list_ases(words, &mut list);
    let network = Network { words, ases };
    let question = Question::new(network, &list[..ases], destination)?;
    question.fits(table.len(), room.len())?;
    let mut best = [0u32; WORDS_PER_ENTRY * Limits::BASE.ases];
    question.answer(table, room, &mut best);
    Ok(())
}

// The stable table to the destination, four words per AS, for a list of link words, with working room; or the first refusal of 1 to 8.
pub fn stable_table(
    words: &[u32],
    destination: u32,
    table: &mut [u32],
    room: &mut [u32],
) -> Result<(), Refusal>
    ensures { Tabled base_limits words.now destination table.old room.old result table.new room.new }
{
    network::check_links(words)?;
    accepted_table(words, destination, table, room)
}
