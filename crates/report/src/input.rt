// The program's input: the destination's line, and the link text behind it.
ghost use Rattle.std.specs.Prelude.{◌≡◌};
ghost use Rattle.rules.specs.Checks.{base_limits};
ghost use Rattle.linktext.specs.Lines.{lf};
ghost use Rattle.linktext.specs.Fields.{place_of};
ghost use Rattle.linktext.specs.TextNetworks.{links_of_text};
ghost use Rattle.report.specs.Report.{destination_in, links_behind, fault_of_report};
ghost use Rattle.report.specs.Answers.{fault_of_text, fault_of_lines, BehindFirst, Worked};

use crate::working::answer_links;
use crate::{LF, ROOM_WORDS, TABLE_WORDS, Told};
use linktext::line::{find, read_number};
use linktext::reading::read_scratch;
use network::WORDS_PER_LINK;
use rules::{Limits, Refusal};

// What is told of a link text; or the refusal of a line, or the first of 1 to 7.
fn answer_text(
    text: &[u8],
    destination: u32,
    table: &mut [u32; TABLE_WORDS],
    room: &mut [u32; ROOM_WORDS],
) -> Result<Told, Refusal>
    ensures { Worked (links_of_text base_limits text.now) destination (fault_of_text text.now destination) table.old room.old result table.new room.new }
{
    let mut words = [0u32; WORDS_PER_LINK * Limits::BASE.links];
    let links = read_scratch(text, Limits::BASE, &mut words)?;
    answer_links(&words[..WORDS_PER_LINK * links], destination, table, room)
}

// Where the link text begins, behind the first line, which ends at `end`.
fn text_from(input: &[u8], end: usize) -> usize
    requires { end ≡ place_of lf input.now }
    ensures { BehindFirst input.now result }
{
    if end < input.len() { end + 1 } else { end }
}

// What is told of an input that is not too long.
fn answer_lines(
    input: &[u8],
    table: &mut [u32; TABLE_WORDS],
    room: &mut [u32; ROOM_WORDS],
) -> Result<Told, Refusal>
    ensures { Worked (links_behind base_limits input.now) (destination_in input.now) (fault_of_lines input.now) table.old room.old result table.new room.new }
{
    let end = find(input, 0, LF);
    let Ok(destination) = read_number(&input[..end]) else {
        return Err(Refusal::Unreadable(0));
    };
    let start = text_from(input, end);
    answer_text(&input[start..], destination, table, room)
}

// What is told of an input, with its lines in the table; or the refusal, which leaves table and room as they were.
pub fn answer(
    input: &[u8],
    table: &mut [u32; TABLE_WORDS],
    room: &mut [u32; ROOM_WORDS],
) -> Result<Told, Refusal>
    ensures { Worked (links_behind base_limits input.now) (destination_in input.now) (fault_of_report base_limits input.now) table.old room.old result table.new room.new }
{
    if Limits::BASE.text < input.len() {
        return Err(Refusal::OverLimit);
    }
    answer_lines(input, table, room)
}
