// Lines of a table as values, read from and written to table words, four per line.
//
// Kept (a): `Row`, `row_at` and `WORDS_PER_LINE` are public; `offers` reads the same words as pairs, and the sheet does not need that crate. `row_at` asks for
// `4 * i + 4 ≤ length table`, as its row in docs/PROMISES.md says.
ghost use Rattle.std.specs.Prelude.{◌+◌, ◌*◌, ◌≤◌, ◌≡◌, [], ◌∷◌, length};
ghost use Rattle.std.proofs.lemmas.List.Edits.{sets};
ghost use Rattle.rules.specs.Judge.{words_of, stands};
ghost use Rattle.sheet.specs.Places.{entry_of, entry_at};

/// Words per line: AS, type, length, next hop.
pub const WORDS_PER_LINE: usize = 4;

/// A line of a table or a sheet: the number of its AS, the type and the length of that AS's route, and its next hop.
#[derive(Clone, Copy, Debug, PartialEq, Eq)]
pub struct Row {
    pub number: u32,
    pub typ: u32,
    pub length: u32,
    pub next: u32,
}

impl Row {
    /// Whether it can stand as the line that is due for AS u: lengths up to bound.
    pub(crate) fn stands(self, u: u32, bound: u32) -> bool
        ensures { result ≡ stands bound u (entry_of self) }
    {
        // Kept (a): the type is a number, 4 for unreachable: the clause of the public `lines_fault` (`standing`) answers for numbers that
        // are no type.
        let lost = self.typ == 4 && self.length > 0;
        self.number == u && (1..=4).contains(&self.typ) && !lost && self.length <= bound
    }
}

/// Line i of table words.
pub fn row_at(table: &[u32], i: usize) -> Row
    requires { 4 * i + 4 ≤ length table.now }
    ensures { entry_of result ≡ entry_at table.now i }
{
    let at = WORDS_PER_LINE * i;
    Row {
        number: table[at],
        typ: table[at + 1],
        length: table[at + 2],
        next: table[at + 3],
    }
}

/// Puts a line at place i of table words. The other words stay.
pub(crate) fn put_row(table: &mut [u32], i: usize, row: Row)
    requires { 4 * i + 4 ≤ length table.old }
    ensures { table.new ≡ sets table.old (4 * i) (words_of (entry_of row ∷ [])) }
{
    let at = WORDS_PER_LINE * i;
    table[at] = row.number;
    table[at + 1] = row.typ;
    table[at + 2] = row.length;
    table[at + 3] = row.next;
}
