// A sheet from link words: the stable table is worked out, then written.
ghost use Rattle.std.specs.Prelude.{◌+◌, ◌*◌, ◌/◌, ◌<◌, ◌≡◌, length};
ghost use Rattle.rules.specs.Entry.{fault_of_output, filled};
ghost use Rattle.rules.specs.Judge.{entries_of};
ghost use Rattle.sheet.specs.Form.{sheet_of};
ghost use Rattle.storefront.specs.Steps.{valued, told_lines, final_lines};

use super::words::tabulate;
use network::Network;
use rules::{Limits, Refusal};
use sheet::rows::WORDS_PER_LINE;
use sheet::{BYTES_PER_LINE, HEAD_BYTES, writing};

// The sheet of the links to the destination: the number of its bytes.
pub fn make(words: &[u32], destination: u32, sheet: &mut [u8]) -> Result<u64, Refusal>
    ensures reply { result ≡ told_lines words.now destination (length sheet.old) }
    ensures bytes { sheet.new ≡ final_lines words.now destination sheet.old }
{
    make_for(Network::check(words)?, destination, sheet)
}

// The same of an accepted network.
// Kept (a): a function of its own, so that the check's memory is free when the room is taken: the stack is fixed, and `rust/tests/stack.rs`
// holds `bostuvrel_sheet` below 128 KiB.
fn make_for(network: Network<'_>, destination: u32, sheet: &mut [u8]) -> Result<u64, Refusal>
    ensures reply { result ≡ told_lines network.entry.words.now destination (length sheet.old) }
    ensures bytes { sheet.new ≡ final_lines network.entry.words.now destination sheet.old }
{
    let mut table = [0u32; WORDS_PER_LINE * Limits::BASE.ases];
    tabulate(network, destination, &mut table)?;
    write(&table[..WORDS_PER_LINE * network.ases], destination, sheet)
}

// The lines of a table as a sheet, if it fits.
fn write(table: &[u32], destination: u32, sheet: &mut [u8]) -> Result<u64, Refusal>
    requires { 11 * (length table.now / 4) < 65536 }
    ensures reply { result ≡ valued (fault_of_output (10 + 11 * (length table.now / 4)) (length sheet.old)) (10 + 11 * (length table.now / 4)) }
    ensures bytes { sheet.new ≡ filled (fault_of_output (10 + 11 * (length table.now / 4)) (length sheet.old)) (sheet_of destination (entries_of table.now)) sheet.old }
{
    let size = HEAD_BYTES + BYTES_PER_LINE * (table.len() / WORDS_PER_LINE);
    if sheet.len() < size {
        return Err(Refusal::OutputShort);
    }
    writing::put_sheet(sheet, destination, table);
    Ok(size as u64)
}
