// The program's body: bytes in, the report or the refusal out.
#![tactic(auto, unfolding(linktext::specs::Fields::place_of, crate::specs::Report::fault_of_report, rules::specs::Network::links_of, crate::specs::Report::line_text, crate::specs::Report::refusal_line, crate::specs::Printing::entries_text, crate::specs::Printing::head_text, crate::specs::Printing::told_text))]

ghost use Rattle.rules.specs.Checks.{base_limits};
ghost use Rattle.report.specs.Entries.{Reported};

use findings::Found;
use offers::WORDS_PER_ENTRY;
use rules::Limits;

mod input;
mod printing;
mod working;

// The program's own working room, in words: 8 for each of 1,536 links and 8 for each of 512 ASes.
pub const ROOM_WORDS: usize = 8 * (Limits::BASE.links + Limits::BASE.ases);

// The table of 512 ASes, in words.
const TABLE_WORDS: usize = WORDS_PER_ENTRY * Limits::BASE.ases;

// What the longest report takes: 71 bytes, and 44 for each of 512 ASes, where every number has ten digits.
pub const REPORT_BYTES: usize = 71 + 44 * Limits::BASE.ases;

// What ends each line.
const LF: u8 = b'\n';

// What is known where the machine's run has ended: the destination, how many ASes there are, quiet or not, and the deliveries made.
#[derive(Clone, Copy, Debug, PartialEq, Eq)]
struct Ending {
    destination: u32,
    count: usize,
    quiet: bool,
    made: u32,
}

// What the report tells: how the run ended, and the two findings.
#[derive(Clone, Copy, Debug, PartialEq, Eq)]
struct Told {
    end: Ending,
    found: Found,
}

// The report on an input, or the line of its refusal, from byte 0 on, and how many bytes it has. The room is lent for findings, table and
// machine.
pub fn report(input: &[u8], room: &mut [u32; ROOM_WORDS], out: &mut [u8; REPORT_BYTES]) -> usize
    ensures { Reported base_limits input.now room.old out.old result room.new out.new }
{
    let mut table = [0u32; TABLE_WORDS];
    match input::answer(input, &mut table, room) {
        Ok(told) => printing::put_report(out, told, &table),
        Err(why) => printing::put_refusal(out, why),
    }
}
