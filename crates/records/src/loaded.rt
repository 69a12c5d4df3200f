// The entries over links that were loaded by value: refusal 1 of too many, else the entry over words.
// Kept (a): a function for each entry, as in the crate's root, since all of them are public; each is one call.
ghost use Rattle.std.specs.Prelude.{◌≡◌};
ghost use Rattle.rules.specs.Checks.{base_limits, check_words};
ghost use Rattle.table.specs.Entries.{Tabled};
ghost use Rattle.judge.specs.Judging.{Judged};
ghost use Rattle.machine.specs.Answers.{Answered};
ghost use Rattle.records.specs.Entries.{Holding, TextWritten, FoundIn, SheetWritten};

use super::Words;
use findings::Found;
use machine::Ran;
use rules::Refusal;

// The number of the links' ASes, or the first refusal of 1 to 6.
pub fn check_links(w: Words) -> Result<usize, Refusal>
    ensures { Holding w (λ ws. result ≡ check_words base_limits ws) }
{
    network::check_links(w.link_words()?)
}

// The links' text into lent bytes.
pub fn write_text(w: Words, bytes: &mut [u8]) -> Result<usize, Refusal>
    ensures { Holding w (λ ws. TextWritten ws bytes.old result bytes.new) }
{
    linktext::writing::write_text(w.link_words()?, bytes)
}

// The two findings.
pub fn find(w: Words, room: &mut [u32]) -> Result<Found, Refusal>
    ensures { Holding w (λ ws. FoundIn ws room.old result room.new) }
{
    findings::find(w.link_words()?, room)
}

// The stable table to a destination.
pub fn stable_table(
    w: Words,
    destination: u32,
    table: &mut [u32],
    room: &mut [u32],
) -> Result<(), Refusal>
    ensures { Holding w (λ ws. Tabled base_limits ws destination table.old room.old result table.new room.new) }
{
    table::stable_table(w.link_words()?, destination, table, room)
}

// A table's sheet into lent bytes.
pub fn write_sheet(
    w: Words,
    destination: u32,
    table: &[u32],
    bytes: &mut [u8],
) -> Result<usize, Refusal>
    ensures { Holding w (λ ws. SheetWritten ws destination table.now bytes.old result bytes.new) }
{
    sheet::write_sheet(w.link_words()?, destination, table, bytes)
}

// The judge of a sheet.
pub fn judge_sheet(w: Words, sheet: &[u8], room: &mut [u32]) -> Result<(), Refusal>
    ensures { Holding w (λ ws. Judged base_limits 511 ws sheet.now room.old result room.new) }
{
    judge::judge_sheet(w.link_words()?, sheet, room)
}

// A run of the machine.
pub fn run(
    w: Words,
    destination: u32,
    choices: &[u32],
    further: u32,
    table: &mut [u32],
    room: &mut [u32],
) -> Result<Ran, Refusal>
    ensures { Holding w (λ ws. Answered base_limits ws destination choices.now further table.old room.old result table.new room.new) }
{
    machine::run(w.link_words()?, destination, choices, further, table, room)
}
