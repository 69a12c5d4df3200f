// A sheet written from a table: its head, then its lines, after every refusal was looked at.
ghost use Rattle.std.specs.Prelude.{◌+◌, ◌*◌, ◌/◌, ◌≤◌, ◌<◌, ◌≡◌, length};
ghost use Rattle.std.proofs.lemmas.List.Edits.{sets};
ghost use Rattle.rules.specs.Judge.{entries_of};
ghost use Rattle.rules.specs.Network.{links_of, ases_of};
ghost use Rattle.sheet.specs.Form.{line_bytes, lines_bytes, sheet_of};
ghost use Rattle.sheet.specs.Places.{entry_of, head_of, over};
ghost use Rattle.sheet.specs.Writing.{OneField, fault_of_sheet, Wrote};

use super::rows::{Row, WORDS_PER_LINE};
use super::{BYTES_PER_LINE, HEAD_BYTES, LONGEST, numbers, rows, standing};
use network::Network;
use rules::Refusal;

/// The ten bytes before lines of so many bytes.
fn put_head(bytes: &mut [u8], destination: u32, size: u16)
    requires { 10 ≤ length bytes.old }
    ensures { bytes.new ≡ sets bytes.old 0 (head_of destination size) }
{
    bytes[0] = 1;
    numbers::put(bytes, 1, &[0, 4]);
    numbers::put(bytes, 3, &destination.to_be_bytes());
    bytes[7] = 2;
    numbers::put(bytes, 8, &size.to_be_bytes());
}

/// The eleven bytes of a line, from byte at on.
fn put_line(bytes: &mut [u8], at: usize, row: Row)
    requires { at + 11 ≤ length bytes.old }
    ensures { bytes.new ≡ sets bytes.old at (line_bytes (entry_of row)) }
{
    let length = (row.length % 65536) as u16;
    numbers::put(bytes, at, &row.number.to_be_bytes());
    bytes[at + 4] = (row.typ % 256) as u8;
    numbers::put(bytes, at + 5, &length.to_be_bytes());
    numbers::put(bytes, at + 7, &row.next.to_be_bytes());
}

/// The lines of a table, from byte 10 on.
#[tactic(auto, using(std::proofs::lemmas::Grind::common_steps, crate::proofs::RunLaws::lines_steps))]
fn put_lines(bytes: &mut [u8], table: &[u32])
    requires { 10 + 11 * (length table.now / 4) ≤ length bytes.old }
    ensures { bytes.new ≡ sets bytes.old 10 (lines_bytes (entries_of table.now)) }
{
    for i in 0..table.len() / WORDS_PER_LINE {
        put_line(
            bytes,
            HEAD_BYTES + BYTES_PER_LINE * i,
            rows::row_at(table, i),
        );
    }
}

/// The sheet of a table. The bytes beyond it stay.
pub fn put_sheet(bytes: &mut [u8], destination: u32, table: &[u32])
    requires { (10 + 11 * (length table.now / 4) ≤ length bytes.old) × (11 * (length table.now / 4) < 65536) }
    ensures { bytes.new ≡ over (sheet_of destination (entries_of table.now)) bytes.old }
{
    let size = BYTES_PER_LINE * (table.len() / WORDS_PER_LINE);
    put_head(bytes, destination, size as u16);
    put_lines(bytes, table);
}

/// A table to be written as the sheet to a destination, for a network and the list of its ASes.
// Kept (d): network and ASes with the fact `listed`, as in judge (`Printed`), table (`Question`) and machine (`Order`): a public type of
// `network` for both would need a maker that lends the list and repeats the clause of `list_ases`, and each of these structs would still be
// built once and read through one field more.
#[derive(Clone, Copy, Debug, PartialEq, Eq)]
pub(crate) struct Draft<'a> {
    pub network: Network<'a>,
    pub ases: &'a [u32],
    pub destination: u32,
    pub table: &'a [u32],
    ghost listed: { ases.now ≡ ases_of (links_of network.words.now) },
    ghost one_field: { OneField ases.now },
}

impl Draft<'_> {
    /// The bytes of its sheet.
    fn size(self) -> usize
        ensures { result ≡ 10 + 11 * length self.entry.ases.now }
    {
        HEAD_BYTES + BYTES_PER_LINE * self.ases.len()
    }

    /// Refusals 7, 11, 8 of its sheet, to be written into so many bytes.
    #[tactic(auto, using(std::proofs::lemmas::Grind::common_steps, crate::proofs::WriteLaws::draft_order), unfolding(crate::specs::Writing::fault_of_sheet))]
    fn check(self, room: usize) -> Result<(), Refusal>
        ensures { result ≡ fault_of_sheet 511 self.entry.ases.now self.entry.destination self.entry.table.now room }
    {
        let place = network::place_of(self.ases, self.ases.len(), self.destination);
        place.ok_or(Refusal::NoDestination)?;
        standing::table_fault(self.ases, self.table, LONGEST)?;
        if room < self.size() {
            return Err(Refusal::OutputShort);
        }
        Ok(())
    }

    /// Writes its sheet: the number of bytes, or refusals 7, 11, 8.
    pub(crate) fn write(self, bytes: &mut [u8]) -> Result<usize, Refusal>
        ensures { Wrote 511 self.entry.ases.now self.entry.destination self.entry.table.now bytes.old bytes.new result }
    {
        self.check(bytes.len())?;
        put_sheet(bytes, self.destination, self.table);
        Ok(self.size())
    }
}
