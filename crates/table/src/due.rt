// What is due at each entry of a table, where another table holds the best offers under it: a pair and a next hop.
// Kept (d): n beside the table: in `&table[..4 * n]` the number of entries would be a length divided by four again, and a caller's words
// beyond 4n stay by a clause either way.
ghost use Rattle.std.specs.Prelude.{◌+◌, ◌*◌, ◌≤◌, ◌≡◌, true, length};
ghost use Rattle.table.specs.Steps.{pair_due, due_hop, IsDue, Agrees, Hopped};

use rules::TypeLength;

// The best offers under a table, entry by entry, and the destination that they lead to.
#[derive(Clone, Copy, Debug, PartialEq, Eq)]
pub struct Best<'a> {
    pub offers: &'a [u32],
    pub destination: u32,
}

// Kept (d): `4 * i + 4 ≤ length` of both tables in three contracts: `Best` cannot hold it of the other table, which `put_hops` changes.
impl Best<'_> {
    // The pair that is due at entry i: origin at the destination, and else the best offer's.
    fn pair_due(self, table: &[u32], i: usize) -> TypeLength
        requires { (4 * i + 4 ≤ length table.now) × (4 * i + 4 ≤ length self.offers.now) }
        ensures { result ≡ pair_due self.entry.destination table.now self.entry.offers.now i }
    {
        if offers::number_at(table, i) == self.destination {
            TypeLength::ORIGIN
        } else {
            offers::pair_at(self.offers, i)
        }
    }

    // The next hop that is due: the table's own at the destination, and else the best offer's.
    fn hop_due(self, table: &[u32], i: usize) -> u32
        requires { (4 * i + 4 ≤ length table.now) × (4 * i + 4 ≤ length self.offers.now) }
        ensures { result ≡ due_hop self.entry.destination table.now self.entry.offers.now i }
    {
        if offers::number_at(table, i) == self.destination {
            offers::next_at(table, i)
        } else {
            offers::next_at(self.offers, i)
        }
    }

    // Whether entry i has the pair that is due.
    fn agrees_at(self, table: &[u32], i: usize) -> bool
        requires { (4 * i + 4 ≤ length table.now) × (4 * i + 4 ≤ length self.offers.now) }
        ensures { result ≡ true → IsDue self.entry.destination table.now self.entry.offers.now i }
    {
        self.pair_due(table, i) == offers::pair_at(table, i)
    }

    // Whether each of the first n entries has.
    pub fn agrees(self, table: &[u32], n: usize) -> bool
        requires { (4 * n ≤ length table.now) × (4 * n ≤ length self.offers.now) }
        ensures { result ≡ true → Agrees self.entry.destination table.now self.entry.offers.now n }
    {
        (0..n).all(|i| self.agrees_at(table, i))
    }

    // The first n entries get the next hops that are due.
    pub fn put_hops(self, table: &mut [u32], n: usize)
        requires { (4 * n ≤ length table.old) × (4 * n ≤ length self.offers.now) }
        ensures { Hopped self.entry.destination self.entry.offers.now n table.old table.new }
    {
        for i in 0..n {
            let pair = offers::pair_at(table, i);
            let next = self.hop_due(table, i);
            offers::put_line(table, i, pair, next);
        }
    }
}
