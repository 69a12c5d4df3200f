// From link words to what the report tells, with the room lent for findings, table and machine.
ghost use Rattle.std.specs.Prelude.{◌≡◌, length, replicate, Ok};
ghost use Rattle.rules.specs.Network.{links_of, ases_of};
ghost use Rattle.rules.specs.Entry.{fault_of_destination};
ghost use Rattle.report.specs.Answers.{fault_of_link_words, Accepted, settled, told_of, Worked};

use crate::{Ending, ROOM_WORDS, TABLE_WORDS, Told};
use findings::find_accepted;
use machine::MOST_DELIVERIES;
use network::Network;
use rules::Refusal;
use table::accepted_table;

// No choices: the lowest waiting direction is delivered from the start.
const NO_CHOICES: [u32; 0] = [];

// Kept (d): network and end of run are asked for side by side, as `Accepted` says of both: what is told holds the end and outlives the
// words that the network borrows, so an end with the network in it would be a second type.

// What is told with the two findings on the links.
fn with_findings(
    network: Network<'_>,
    end: Ending,
    room: &mut [u32; ROOM_WORDS],
) -> Result<Told, Refusal>
    requires { Accepted network.words.now end.count end.destination }
    ensures value { result ≡ Ok (told_of (links_of network.entry.words.now) end) }
    ensures room_after { room.new ≡ replicate (length room.old) 0 }
{
    let found = find_accepted(network.words, network.ases, room)?;
    Ok(Told { end, found })
}

// The lines that are printed. Where the run is quiet they are the stable table's: the lines that every order of deliveries ends on, and
// that a sheet for this destination holds. The report is defined by the run alone; that these are the run's lines too is proved from the
// theory. A run that is stopped has only the lines of its moment, which stay.
fn settle(
    network: Network<'_>,
    end: Ending,
    table: &mut [u32; TABLE_WORDS],
    room: &mut [u32; ROOM_WORDS],
) -> Result<(), Refusal>
    requires { Accepted network.words.now end.count end.destination }
    ensures value { result ≡ Ok tt }
    ensures table_after { table.new ≡ settled (links_of network.entry.words.now) end.destination end.quiet table.old }
    ensures room_len_unchanged { length room.new ≡ length room.old }
{
    if end.quiet {
        accepted_table(network.words, end.destination, table, room)?;
    }
    Ok(())
}

// Lines and findings where the run has ended.
// Kept (d): table and room go on side by side; a struct of the two would need a clause for each one's loan in every function.
fn tell(
    network: Network<'_>,
    end: Ending,
    table: &mut [u32; TABLE_WORDS],
    room: &mut [u32; ROOM_WORDS],
) -> Result<Told, Refusal>
    requires { Accepted network.words.now end.count end.destination }
    ensures value { result ≡ Ok (told_of (links_of network.entry.words.now) end) }
    ensures table_after { table.new ≡ settled (links_of network.entry.words.now) end.destination end.quiet table.old }
    ensures room_after { room.new ≡ replicate (length room.old) 0 }
{
    settle(network, end, table, room)?;
    with_findings(network, end, room)
}

// The run to the destination over an accepted network, and what is told of it; or refusal 7.
fn run_machine(
    network: Network<'_>,
    destination: u32,
    table: &mut [u32; TABLE_WORDS],
    room: &mut [u32; ROOM_WORDS],
) -> Result<Told, Refusal>
    ensures { Worked (links_of network.entry.words.now) destination (fault_of_destination destination (ases_of (links_of network.entry.words.now))) table.old room.old result table.new room.new }
{
    let ran = machine::run(
        network.words,
        destination,
        &NO_CHOICES,
        MOST_DELIVERIES,
        table,
        room,
    )?;
    let end = Ending {
        destination,
        count: network.ases,
        quiet: ran.quiet,
        made: ran.made as u32,
    };
    tell(network, end, table, room)
}

// What is told of a list of link words; or the first refusal of 1 to 7.
pub fn answer_links(
    words: &[u32],
    destination: u32,
    table: &mut [u32; TABLE_WORDS],
    room: &mut [u32; ROOM_WORDS],
) -> Result<Told, Refusal>
    ensures { Worked (links_of words.now) destination (fault_of_link_words words.now destination) table.old room.old result table.new room.new }
{
    run_machine(Network::check(words)?, destination, table, room)
}
