// The route sheet: written from a table, read, and judged by its own lines.
#![tactic(auto, unfolding(rules::specs::Judge::words_of, rules::specs::Judge::stands, crate::specs::Form::fault_of_length, crate::specs::Form::fault_of_form, crate::specs::Form::lines_from, crate::specs::Entries::fault_of_reading, crate::specs::Entries::read_reply, crate::specs::Entries::final_table, rules::specs::Judge::entries_of, crate::specs::Form::line_bytes, crate::specs::Form::lines_bytes, crate::specs::Form::sheet_of, crate::specs::Writing::fault_of_sheet, crate::specs::Entries::write_reply, crate::specs::Entries::final_bytes, crate::specs::Entries::fault_of_table))]

ghost use Rattle.std.specs.Prelude.{◌≡◌, length};
ghost use Rattle.rules.specs.Checks.{base_limits};
ghost use Rattle.sheet.specs.Entries.{read_reply, final_table, write_reply, final_bytes};

use network::Network;
use rules::{Limits, Refusal};
use writing::Draft;

mod numbers;
pub mod reading;
pub mod rows;
pub mod standing;
pub mod writing;

/// The bytes before the lines: tag and length, the destination, tag and length.
pub const HEAD_BYTES: usize = 10;

/// Bytes per line: AS, type, length, next hop.
pub const BYTES_PER_LINE: usize = 11;

/// The longest length that a line can have.
pub const LONGEST: u32 = 511;

/// What reading a sheet gives: the destination and the number of lines.
#[derive(Clone, Copy, Debug, PartialEq, Eq)]
pub struct SheetRead {
    pub destination: u32,
    pub lines: usize,
}

/// Reads a sheet into table words, four per line: refusals 1, 10, 8. Words beyond the last line stay as they were.
pub fn read_sheet(sheet: &[u8], table: &mut [u32]) -> Result<SheetRead, Refusal>
    ensures reply { result ≡ read_reply base_limits sheet.now (length table.old) }
    ensures table { table.new ≡ final_table base_limits sheet.now table.old }
{
    reading::check(sheet, table.len())?;
    let lines = reading::line_count(sheet);
    reading::read_lines(sheet, lines, table);
    Ok(SheetRead {
        destination: reading::destination(sheet),
        lines,
    })
}

/// Writes the sheet of a table for a network: the number of its bytes, or refusals 1, 2 to 6, 7, 11, 8. Bytes beyond the sheet stay as they
/// were.
// Kept (a): four parameters, since this function is public; inside they are a `Draft`, and bytes, which are lent.
#[tactic(auto, using(std::proofs::lemmas::Grind::common_steps, crate::proofs::WriteLaws::entry_order))]
pub fn write_sheet(
    words: &[u32],
    destination: u32,
    table: &[u32],
    bytes: &mut [u8],
) -> Result<usize, Refusal>
    ensures reply { result ≡ write_reply base_limits 511 words.now destination table.now (length bytes.old) }
    ensures bytes { bytes.new ≡ final_bytes base_limits 511 words.now destination table.now bytes.old }
{
    let network = Network::check(words)?;
    let mut ases = [0u32; Limits::BASE.ases];
    let n = network::list_ases(words, &mut ases);
    let draft = Draft {
        network,
        ases: &ases[..n],
        destination,
        table,
    };
    draft.write(bytes)
}
