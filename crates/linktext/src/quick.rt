// The usual line, `digits|digits|-1` or `digits|digits|0` with its LF, read in one pass. Of any other line nothing is said here: `None`.
//
// `rest_from`, `number_from` and `field_from` are in line wherever they stand: at a call their results would go through memory.
//
// Kept (d): `text, at` stand side by side and not in a cursor struct: each step asks for another number of bytes behind `at`, so the struct would hold no fact.
ghost use Rattle.std.specs.Prelude.{◌≡◌, true, ◌+◌, ◌≤◌, ◌<◌, length, IfSome};
ghost use Rattle.linktext.specs.Texts.{decimal, relation_text};
ghost use Rattle.linktext.specs.Usual.{Found, Begun, Four, FourDigits, Digits, spelled, field_text, end_text, Written};

use crate::line::{BAR, MINUS, MOST, ONE, ZERO};
use rules::Link;

pub const LF: u8 = b'\n';

// The bytes of the longest usual line.
const LONGEST: usize = 25;

// A value, and the place after it.
#[derive(Clone, Copy, Debug, PartialEq, Eq)]
struct Step {
    value: u32,
    next: usize,
}

// A link, and the place of its line's LF.
#[derive(Clone, Copy, Debug, PartialEq, Eq)]
pub struct UsualLine {
    pub link: Link,
    pub end: usize,
}

impl Step {
    // None of a value above the largest that a field may hold.
    fn new(value: u64, next: usize) -> Option<Step>
        ensures { IfSome result (λ s. (s.value ≡ value) × (s.next ≡ next)) }
    {
        (value <= MOST).then(|| Step {
            value: value as u32,
            next,
        })
    }
}

// The number whose first `from` digits stand at `at` and are those of `begun`, which is no zero; of at most ten digits.
// Kept (d): digits by hand, since where a number ends is found as it is read; a parse of std's would have to be told it first.
fn digits_from(text: &[u8], at: usize, from: usize, begun: u64) -> Option<Step>
    requires { Begun text.now at from begun }
    ensures { IfSome result (λ s. Found text.now at 10 4294967295 decimal s.value s.next) }
{
    let mut value = begun;
    for k in from..10 {
        let c = text[at + k];
        if !c.is_ascii_digit() {
            return Step::new(value, at + k);
        }
        value = 10 * value + u64::from(c - ZERO);
    }
    Step::new(value, at + 10)
}

// Four bytes in one number, the first lowest, each less `0`: 0xcfcfcfd0 is 2^32 less four of these.
fn four_from(text: &[u8], at: usize) -> u64
    requires { at + 4 ≤ length text.now }
    ensures { Four text.now at result }
{
    let four = u32::from_le_bytes([text[at], text[at + 1], text[at + 2], text[at + 3]]);
    (u64::from(four) + 0xcfcfcfd0) % 0x100000000
}

// Whether all four are digits: neither they nor six more than they reach 16.
fn are_digits(four: u64) -> bool
    requires { four < 4294967296 }
    ensures { result ≡ true → Digits four }
{
    ((four | (four + 0x06060606)) & 0xf0f0f0f0) == 0
}

// What four digits spell: first two pairs, as 2561 is 10 * 256 + 1, then the whole, as 6553601 is 100 * 65536 + 1.
#[tactic(auto, using(std::proofs::lemmas::Grind::common_steps, crate::proofs::FourLaws::four_value))]
fn four_value(four: u64) -> u64
    requires { Digits four }
    ensures { result ≡ spelled four }
{
    let pairs = (2561 * four / 256) & 0x00ff00ff;
    6553601 * pairs / 65536 % 65536
}

// What the four bytes at `at` spell, if all are digits.
fn four_digits(text: &[u8], at: usize) -> Option<u64>
    requires { at + 4 ≤ length text.now }
    ensures { IfSome result (FourDigits text.now at) }
{
    let four = four_from(text, at);
    are_digits(four).then(|| four_value(four))
}

// The number whose first four digits are those of `begun`; the next four are read at once, if there are four.
#[inline(always)]
fn rest_from(text: &[u8], at: usize, begun: u64) -> Option<Step>
    requires { Begun text.now at 4 begun }
    ensures { IfSome result (λ s. Found text.now at 10 4294967295 decimal s.value s.next) }
{
    match four_digits(text, at + 4) {
        Some(more) => digits_from(text, at, 8, 10000 * begun + more),
        None => digits_from(text, at, 4, begun),
    }
}

// The number that begins at `at`, its first four digits read at once, if there are four. After a zero it ends.
#[inline(always)]
fn number_from(text: &[u8], at: usize) -> Option<Step>
    requires { at + 10 ≤ length text.now }
    ensures { IfSome result (λ s. Found text.now at 10 4294967295 decimal s.value s.next) }
{
    let lead = text[at];
    if lead == ZERO {
        return Some(Step {
            value: 0,
            next: at + 1,
        });
    }
    if let Some(begun) = four_digits(text, at) {
        return rest_from(text, at, begun);
    }
    if !lead.is_ascii_digit() {
        return None;
    }
    digits_from(text, at, 1, u64::from(lead - ZERO))
}

// A number and its bar.
#[inline(always)]
fn field_from(text: &[u8], at: usize) -> Option<Step>
    requires { at + 11 ≤ length text.now }
    ensures { IfSome result (λ s. Found text.now at 11 4294967295 field_text s.value s.next) }
{
    let Step { value, next } = number_from(text, at)?;
    if text[next] != BAR {
        return None;
    }
    Some(Step {
        value,
        next: next + 1,
    })
}

// The relation that begins at `at`.
fn relation_from(text: &[u8], at: usize) -> Option<Step>
    requires { at + 2 ≤ length text.now }
    ensures { IfSome result (λ s. Found text.now at 2 1 relation_text s.value s.next) }
{
    match text[at] {
        ZERO => Some(Step {
            value: 0,
            next: at + 1,
        }),
        MINUS if text[at + 1] == ONE => Some(Step {
            value: 1,
            next: at + 2,
        }),
        _ => None,
    }
}

// A relation and its LF, whose place is the answer's.
fn end_from(text: &[u8], at: usize) -> Option<Step>
    requires { at + 3 ≤ length text.now }
    ensures { IfSome result (λ s. Found text.now at 3 1 end_text s.value (s.next + 1)) }
{
    let relation = relation_from(text, at)?;
    if text[relation.next] != LF {
        return None;
    }
    Some(relation)
}

// The link whose usual line begins at `at`.
pub fn quick_link(text: &[u8], at: usize) -> Option<UsualLine>
    requires { at ≤ length text.now }
    ensures { IfSome result (λ usual. Written text.now at usual.link usual.end) }
{
    if text.len() - at < LONGEST {
        return None;
    }
    let first = field_from(text, at)?;
    let second = field_from(text, first.next)?;
    let third = end_from(text, second.next)?;
    let link = Link {
        a: first.value,
        b: second.value,
        relation: third.value,
    };
    Some(UsualLine {
        link,
        end: third.next,
    })
}
