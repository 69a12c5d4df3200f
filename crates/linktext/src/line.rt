// One line of a link text, cut at its bars: a skip, a link, or the reason it does not read.
ghost use Rattle.std.specs.Prelude.{◌≡◌, true, ◌+◌, ◌≤◌, length, drop, Some, position, ◌==◌};
ghost use Rattle.std.specs.List.{list_all};
ghost use Rattle.linktext.specs.Lines.{is_decimal_digit, value_from, is_in_form, numeral_of, relation_of, read_of_line, first_field, second_field, third_field};
ghost use Rattle.linktext.specs.Fields.{place_of, Cut, within_32_bits, number_at};

use crate::{LineRead, NumeralFault, Reason};
use rules::Link;

const HASH: u8 = b'#';

pub const MINUS: u8 = b'-';

pub const ZERO: u8 = b'0';

pub const ONE: u8 = b'1';

pub const BAR: u8 = b'|';

// The largest number that a field may hold.
pub const MOST: u64 = 4294967295;

// Where a byte first stands, if it does.
fn first_place(s: &[u8], byte: u8) -> Option<usize>
    ensures { result ≡ position (λ c. c == byte) s.now }
{
    s.iter().position(|&c| c == byte)
}

// Where a byte first stands at or after `from`, or the end.
pub fn find(s: &[u8], from: usize, byte: u8) -> usize
    requires { from ≤ length s.now }
    ensures { result ≡ from + place_of byte (drop from s.now) }
{
    let rest = &s[from..];
    match first_place(rest, byte) {
        Some(place) => from + place,
        None => s.len(),
    }
}

// `0` to `9`, each byte.
fn all_digits(field: &[u8]) -> bool
    ensures { result ≡ list_all is_decimal_digit field.now }
{
    field.iter().all(u8::is_ascii_digit)
}

// Digits, and no leading zero except the number 0 itself.
fn in_form(field: &[u8]) -> bool
    ensures { result ≡ is_in_form field.now }
{
    match field {
        [] => false,
        [only] => only.is_ascii_digit(),
        [first, ..] => *first != ZERO && all_digits(field),
    }
}

// The value of a field of digits, which may be many; none if it passes the largest number.
// Kept (d): no `u32::from_str_radix`: it takes a `&str`, and a `+` and leading zeros too, so that `in_form` would stay and the bytes would
// become a text first.
fn value(field: &[u8]) -> Option<u32>
    requires { list_all is_decimal_digit field.now ≡ true }
    ensures { result ≡ within_32_bits (value_from 0 field.now) }
{
    let mut value = 0;
    for digit in field {
        value = 10 * value + u64::from(*digit - ZERO);
        if MOST < value {
            return None;
        }
    }
    Some(value as u32)
}

// A field as a number: its value, or why it has none.
pub fn read_number(field: &[u8]) -> Result<u32, NumeralFault>
    ensures { result ≡ numeral_of field.now }
{
    if !in_form(field) {
        return Err(NumeralFault::NoForm);
    }
    value(field).ok_or(NumeralFault::OverLarge)
}

// Field 3 as a relation: `-1` is 1, `0` is 0.
// Kept (a): a relation is a number, as `Link::relation` of the crate rules is (quick.rt too).
fn read_relation(field: &[u8]) -> Option<u32>
    ensures { result ≡ relation_of field.now }
{
    match field {
        b"0" => Some(0),
        b"-1" => Some(1),
        _ => None,
    }
}

// Kept (d): `line, from` stand side by side, with `from ≤ length line` in three contracts: a struct for the two would say this as its ghost field, and each caller
// would build one for one call.
//
// Where the field that begins at index `from` ends: at a bar, or with the line.
fn field_end(line: &[u8], from: usize) -> usize
    requires { from ≤ length line.now }
    ensures { Cut line.now from result }
{
    find(line, from, BAR)
}

// A field that begins at byte `at` as a number.
fn number_at(field: &[u8], at: usize) -> Result<u32, Reason>
    ensures { result ≡ number_at at (numeral_of field.now) }
{
    read_number(field).map_err(|fault| fault.reason(at))
}

// Field 3, which begins at index `from`, and the line's end.
fn read_third(line: &[u8], from: usize, a: u32, b: u32) -> Result<Link, Reason>
    requires { from ≤ length line.now }
    ensures { result ≡ third_field a b (from + 1) (Some (drop from line.now)) }
{
    let end = field_end(line, from);
    let relation = read_relation(&line[from..end]).ok_or(Reason::NoRelation(from + 1))?;
    if end < line.len() {
        return Err(Reason::FurtherBar(end + 1));
    }
    Ok(Link { a, b, relation })
}

// Field 2, which begins at index `from`, and what follows.
fn read_second(line: &[u8], from: usize, a: u32) -> Result<Link, Reason>
    requires { from ≤ length line.now }
    ensures { result ≡ second_field a (from + 1) (Some (drop from line.now)) }
{
    let end = field_end(line, from);
    let b = number_at(&line[from..end], from + 1)?;
    if end == line.len() {
        return Err(Reason::NoRelation(end + 1));
    }
    read_third(line, end + 1, a, b)
}

// Field 1, and what follows.
fn read_first(line: &[u8]) -> Result<Link, Reason>
    ensures { result ≡ first_field line.now }
{
    let end = field_end(line, 0);
    let a = number_at(&line[..end], 1)?;
    if end == line.len() {
        return Err(Reason::NoNumber(end + 1));
    }
    read_second(line, end + 1, a)
}

// A line, without its LF.
pub(crate) fn read_line(line: &[u8]) -> LineRead
    ensures { result ≡ read_of_line line.now }
{
    match line {
        [] => LineRead::Faulty(Reason::Empty),
        [HASH, ..] => LineRead::Skip,
        _ => read_first(line).into(),
    }
}
