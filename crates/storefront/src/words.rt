// Judge, findings, machine and stable table on link words, each in a room of its own, which always suffices.
// Kept (d): a room in each of the four; a closure over one room is no shorter, for its contract would say what each leaves in lent memory again.
ghost use Rattle.std.specs.Prelude.{◌≡◌, length};
ghost use Rattle.rules.specs.Checks.{base_limits};
ghost use Rattle.findings.specs.Entries.{findings_reply};
ghost use Rattle.sheet.specs.Entries.{judge_reply};
ghost use Rattle.machine.specs.Entries.{run_reply, final_table};
ghost use Rattle.storefront.specs.Steps.{room_words, Stably, Tabulated};

use findings::Found;
use machine::Ran;
use network::Network;
use rules::Refusal;
use sheet::rows::WORDS_PER_LINE;

// The room's words.
// Kept (d): `report` has such a constant for the program's room; the storefront would take in the whole program for it.
const ROOM_WORDS: usize = 16384;

// The judge on a sheet for the links.
pub fn judge(words: &[u32], sheet: &[u8]) -> Result<(), Refusal>
    ensures { result ≡ judge_reply base_limits 511 words.now sheet.now room_words }
{
    let mut room = [0u32; ROOM_WORDS];
    judge::judge_sheet(words, sheet, &mut room)
}

// The findings on the links.
pub fn find(words: &[u32]) -> Result<Found, Refusal>
    ensures { result ≡ findings_reply base_limits words.now room_words }
{
    find_in(Network::check(words)?)
}

// The findings on an accepted network.
// Kept (a): a function of its own, so that the check's memory is free when the room is taken: the stack is fixed, and `rust/tests/stack.rs`
// holds `bostuvrel_findings` below 128 KiB.
fn find_in(network: Network<'_>) -> Result<Found, Refusal>
    ensures { result ≡ findings_reply base_limits network.entry.words.now room_words }
{
    let mut room = [0u32; ROOM_WORDS];
    findings::find_accepted(network.words, network.ases, &mut room)
}

// A run over the links; the table gets the lines of that moment.
// Kept (a): five parameters here and in `text::run`, as the export `bostuvrel_run` takes them and the public `machine::run` wants them.
pub fn run(
    words: &[u32],
    destination: u32,
    choices: &[u32],
    further: u32,
    table: &mut [u32],
) -> Result<Ran, Refusal>
    ensures reply { result ≡ run_reply base_limits words.now destination choices.now further (length table.old) room_words }
    ensures table { table.new ≡ final_table base_limits words.now destination choices.now further table.old room_words }
{
    let mut room = [0u32; ROOM_WORDS];
    machine::run(words, destination, choices, further, table, &mut room)
}

// The stable table of the links to the destination: the number of its words, four per AS.
pub fn stable_table(words: &[u32], destination: u32, table: &mut [u32]) -> Result<u64, Refusal>
    ensures { Tabulated words.now destination table.old result table.new }
{
    let network = Network::check(words)?;
    tabulate(network, destination, table)?;
    Ok((WORDS_PER_LINE * network.ases) as u64)
}

// The stable table of an accepted network.
pub fn tabulate(network: Network<'_>, destination: u32, table: &mut [u32]) -> Result<(), Refusal>
    ensures { Stably network.entry.words.now destination table.old result table.new }
{
    let mut room = [0u32; ROOM_WORDS];
    table::accepted_table(network.words, destination, table, &mut room)
}
