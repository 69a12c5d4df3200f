// A sheet read: its form, its numbers at their places, its lines as table words.
//
// Kept (a): each public function asks for the bytes that it reads and no more (`7 ≤`, `10 ≤`, `10 + 11 * n ≤`), and `read_lines` takes n beside its slices:
// a type `Sheet` of right form, over which they would be methods, would ask more of callers.
ghost use Rattle.std.specs.Prelude.{◌+◌, ◌*◌, ◌≤◌, ◌≡◌, length, drop, Ok};
ghost use Rattle.rules.specs.Checks.{base_limits};
ghost use Rattle.rules.specs.Judge.{words_of};
ghost use Rattle.sheet.specs.Form.{needs, fault_of_length, fault_of_form, destination_of, count_of_lines, lines_from};
ghost use Rattle.sheet.specs.Places.{entry_of, entry_line, over};
ghost use Rattle.sheet.specs.Entries.{fault_of_reading};

use super::rows::{Row, WORDS_PER_LINE};
use super::{BYTES_PER_LINE, HEAD_BYTES, numbers, rows};
use rules::{Limits, Refusal};

/// Byte i is there and has this value.
fn needs(sheet: &[u8], i: usize, value: u8) -> Result<(), Refusal>
    ensures { result ≡ needs sheet.now i value (Ok tt) }
{
    match sheet.get(i) {
        None => Err(Refusal::BrokenForm(sheet.len())),
        Some(byte) if *byte == value => Ok(()),
        Some(_) => Err(Refusal::BrokenForm(i)),
    }
}

/// Bytes 8 and 9 are a multiple of 11 and say how many bytes are left.
fn needs_length(sheet: &[u8]) -> Result<(), Refusal>
    ensures { result ≡ fault_of_length sheet.now }
{
    if sheet.len() < HEAD_BYTES {
        return Err(Refusal::BrokenForm(sheet.len()));
    }
    let size = usize::from(numbers::word2(sheet, 8));
    if size % BYTES_PER_LINE == 0 && size == sheet.len() - HEAD_BYTES {
        Ok(())
    } else {
        Err(Refusal::BrokenForm(8))
    }
}

/// Refusal 10: byte 0 is 1; bytes 1 and 2 say 4; byte 7 is 2; then bytes 8 and 9.
pub fn form_fault(sheet: &[u8]) -> Result<(), Refusal>
    ensures { result ≡ fault_of_form sheet.now }
{
    needs(sheet, 0, 1)?;
    needs(sheet, 1, 0)?;
    needs(sheet, 2, 4)?;
    needs(sheet, 7, 2)?;
    needs_length(sheet)
}

/// The destination.
pub fn destination(sheet: &[u8]) -> u32
    requires { 7 ≤ length sheet.now }
    ensures { result ≡ destination_of sheet.now }
{
    numbers::word4(sheet, 3)
}

/// The number of lines.
pub fn line_count(sheet: &[u8]) -> usize
    requires { 10 ≤ length sheet.now }
    ensures { result ≡ count_of_lines sheet.now }
{
    usize::from(numbers::word2(sheet, 8)) / BYTES_PER_LINE
}

/// Line i.
pub(crate) fn line_at(sheet: &[u8], i: usize) -> Row
    requires { 10 + 11 * i + 11 ≤ length sheet.now }
    ensures { entry_of result ≡ entry_line sheet.now i }
{
    let at = HEAD_BYTES + BYTES_PER_LINE * i;
    Row {
        number: numbers::word4(sheet, at),
        typ: u32::from(sheet[at + 4]),
        length: u32::from(numbers::word2(sheet, at + 5)),
        next: numbers::word4(sheet, at + 7),
    }
}

/// The first n lines as table words. The other words stay.
#[tactic(auto, using(std::proofs::lemmas::Grind::common_steps, crate::proofs::ReadLaws::table_steps))]
pub fn read_lines(sheet: &[u8], n: usize, table: &mut [u32])
    requires { (10 + 11 * n ≤ length sheet.now) × (4 * n ≤ length table.old) }
    ensures { table.new ≡ over (words_of (lines_from n (drop 10 sheet.now))) table.old }
{
    for i in 0..n {
        rows::put_row(table, i, line_at(sheet, i));
    }
}

/// Refusals 1, 10, 8 of a sheet to be read into so many table words.
pub(crate) fn check(sheet: &[u8], words: usize) -> Result<(), Refusal>
    ensures { result ≡ fault_of_reading base_limits sheet.now words }
{
    if Limits::BASE.sheet < sheet.len() {
        return Err(Refusal::OverLimit);
    }
    form_fault(sheet)?;
    if words < WORDS_PER_LINE * line_count(sheet) {
        return Err(Refusal::OutputShort);
    }
    Ok(())
}
