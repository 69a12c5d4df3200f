// The report's words, numbers and lines into lent bytes, one behind the other.
ghost use Rattle.std.specs.Prelude.{◌<◌, ◌≤◌};
ghost use Rattle.rules.specs.Refusals.{refusal_place};
ghost use Rattle.report.specs.Report.{refusal_line};
ghost use Rattle.report.specs.Printing.{Printed, told_text};

use crate::{LF, REPORT_BYTES, TABLE_WORDS, Told};
use linktext::writing::put_number;
use offers::WORDS_PER_ENTRY;
use rules::Refusal;

const SPACE: u8 = b' ';

// Lent bytes, and from which place on the next is written.
// Kept (d): no `Display`: `write!` answers a `Result`, where `Fits` shows that there is room; each step would have an error that cannot
// come.
#[derive(Drop)]
struct Page<'a> {
    bytes: &'a mut [u8],
    at: usize,
}

impl<'a> Page<'a> {
    ghost use Rattle.std.specs.Prelude.{◌∷◌, [], ◌++◌, ◌+◌, ◌*◌, ◌≤◌, length};
    ghost use Rattle.linktext.specs.Texts.{decimal};
    ghost use Rattle.offers.specs.Lines.{number_word, entry_line};
    ghost use Rattle.report.specs.Report.{yes_no, quiet_or, spaced, line_text};
    ghost use Rattle.report.specs.Printing.{two_text, entries_text, head_text};
    ghost use Rattle.report.specs.Pages.{Fits, Puts};

    // Kept (d): each function asks by `Fits` for another number of bytes, so that no type can hold the fact.

    // A word and a byte behind it.
    fn word(&mut self, word: &[u8], end: u8)
        requires { Fits self.old (length word.now + 1) }
        ensures { Puts self.old (word.now ++ (end ∷ [])) self.new }
    {
        let last = self.at + word.len();
        self.bytes[self.at..last].copy_from_slice(word);
        self.bytes[last] = end;
        self.at = last + 1;
    }

    // A number and a byte behind it.
    fn number(&mut self, n: u32, end: u8)
        requires { Fits self.old 11 }
        ensures { Puts self.old (decimal n ++ (end ∷ [])) self.new }
    {
        let last = put_number(self.bytes, self.at, n);
        self.bytes[last] = end;
        self.at = last + 1;
    }

    // A word and a number, then LF.
    fn count(&mut self, word: &[u8], n: u32)
        requires { Fits self.old (length word.now + 12) }
        ensures { Puts self.old (spaced word.now (decimal n)) self.new }
    {
        self.word(word, SPACE);
        self.number(n, LF);
    }

    // A finding: a word, then yes or no, then LF.
    fn finding(&mut self, word: &[u8], holds: bool)
        requires { Fits self.old (length word.now + 5) }
        ensures { Puts self.old (spaced word.now (yes_no holds)) self.new }
    {
        self.word(word, SPACE);
        self.word(if holds { b"yes" } else { b"no" }, LF);
    }

    // How the run ended: quiet or stopped, and the deliveries made.
    fn end(&mut self, quiet: bool, made: u32)
        requires { Fits self.old 19 }
        ensures { Puts self.old (spaced (quiet_or quiet) (decimal made)) self.new }
    {
        self.count(if quiet { b"quiet" } else { b"stopped" }, made);
    }

    // Two numbers with a space between, and a byte behind them.
    fn two(&mut self, x: u32, y: u32, end: u8)
        requires { Fits self.old 22 }
        ensures { Puts self.old (two_text x y end) self.new }
    {
        self.number(x, SPACE);
        self.number(y, end);
    }

    // Entry i of the table as a line: AS, type, length, next hop.
    // Kept (d): the four words by number, since they are printed as they lie: by `offers::number_at`, `pair_at` and `next_at` a pair would
    // be made of two of them and taken apart again.
    fn line(&mut self, table: &[u32], i: usize)
        requires { Fits self.old 44 × (4 * i + 4 ≤ length table.now) }
        ensures { Puts self.old (line_text (number_word table.now i) (entry_line table.now i)) self.new }
    {
        let entry = WORDS_PER_ENTRY * i;
        self.two(table[entry], table[entry + 1], SPACE);
        self.two(table[entry + 2], table[entry + 3], LF);
    }

    // The table's first n entries, a line for each.
    // Kept (d): `lines(&table[..4 * n])` would divide by four again what the caller has counted, in its loop and in its contract.
    fn lines(&mut self, table: &[u32], n: usize)
        requires { Fits self.old (44 * n) × (4 * n ≤ length table.now) }
        ensures { Puts self.old (entries_text table.now 0 n) self.new }
    {
        for i in 0..n {
            self.line(table, i);
        }
    }

    // The destination and the two findings.
    fn head(&mut self, told: Told)
        requires { Fits self.old 52 }
        ensures { Puts self.old (head_text told) self.new }
    {
        self.count(b"destination", told.end.destination);
        self.finding(b"customer-ring", told.found.ring);
        self.finding(b"joined", told.found.joined);
    }
}

// The whole report from byte 0 on, with the lines of the table: how many bytes it has.
pub fn put_report(out: &mut [u8; REPORT_BYTES], told: Told, table: &[u32; TABLE_WORDS]) -> usize
    requires { told.end.count ≤ 512 }
    ensures { Printed (told_text told table.now) out.old out.new result }
{
    let mut page = Page { bytes: out, at: 0 };
    page.head(told);
    page.lines(table, told.end.count);
    page.end(told.end.quiet, told.end.made);
    page.at
}

// The refusal's line from byte 0 on: how many bytes it has.
pub fn put_refusal(out: &mut [u8; REPORT_BYTES], why: Refusal) -> usize
    requires { refusal_place why < 4294967296 }
    ensures { Printed (refusal_line why) out.old out.new result }
{
    let mut page = Page { bytes: out, at: 0 };
    page.word(b"refused", SPACE);
    page.two(why.number(), why.place() as u32, LF);
    page.at
}
