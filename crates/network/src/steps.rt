// The check link by link, in list order.
ghost use Rattle.std.specs.Prelude.{◌≡◌};
ghost use Rattle.network.specs.Prefix.{own_fault, check_at};
ghost use Rattle.network.specs.Tables.{as_homes, pair_homes, Sized, Stepping, Stepped, Starting};

use super::{WORDS_PER_LINK, link_at, slots};
use rules::{Limits, Link, Refusal};

// Refusals 2 to 4 of link l at place i, which other links do not bear on.
fn own_fault(l: Link, i: usize) -> Result<(), Refusal>
    ensures { result ≡ own_fault l i }
{
    if l.a == 0 || l.b == 0 {
        return Err(Refusal::ZeroAs(i));
    }
    if l.relation > 1 {
        return Err(Refusal::NoRelation(i));
    }
    if l.a == l.b {
        return Err(Refusal::EqualEnds(i));
    }
    Ok(())
}

// What the check has seen of a list of links within the limits: a table of the ASes and one of the links by the pair that they join, in
// memory that the caller lends, and how many ASes there are.
#[derive(Drop)]
pub struct Tables<'a> {
    pub limits: Limits,
    pub seats: &'a mut [u32],
    pub pairs: &'a mut [u16],
    pub ases: usize,
    ghost sized: { Sized limits seats.now pairs.now },
}

impl<'a> Tables<'a> {
    // How many slots of the table of ASes are homes, where a search can begin.
    fn as_homes(&self) -> usize
        ensures { result ≡ as_homes self.now.limits self.now.seats.now }
    {
        self.seats.len() - self.limits.ases - 1
    }

    // How many of the table of links are.
    fn pair_homes(&self) -> usize
        ensures { result ≡ pair_homes self.now.limits self.now.pairs.now }
    {
        self.pairs.len() - self.limits.links
    }

    // Link i, after those before it: its refusal, or it stands in the tables too.
    fn take(&mut self, words: &[u32], i: usize) -> Result<(), Refusal>
        requires { Stepping self.old.limits words.now i self.old.ases self.old.seats.now self.old.pairs.now }
        ensures limits { self.new.limits ≡ self.old.limits }
        ensures step { Stepped self.old.limits words.now i self.new.ases self.new.seats.now self.new.pairs.now result }
    {
        let l = link_at(words, i);
        own_fault(l, i)?;
        let homes = self.pair_homes();
        if slots::note_pair(words, self.pairs, homes, i) {
            return Err(Refusal::PairAgain(i));
        }
        let homes = self.as_homes();
        self.ases = slots::note_ends(self.seats, homes, self.ases, l);
        if self.limits.ases < self.ases {
            return Err(Refusal::TooManyAses(i));
        }
        Ok(())
    }

    // All links, from empty tables: the number of ASes.
    pub fn take_all(&mut self, words: &[u32]) -> Result<usize, Refusal>
        requires { Starting self.old.limits words.now self.old.ases self.old.seats.now self.old.pairs.now }
        ensures { result ≡ check_at self.old.limits words.now 0 }
    {
        for i in 0..words.len() / WORDS_PER_LINK {
            self.take(words, i)?;
        }
        Ok(self.ases)
    }
}
