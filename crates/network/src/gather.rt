// The ASes of the links in the order in which they are met. Proved of them: they are the links' ASes, as a set. That none of them stands
// there twice is not proved: whoever reads them has to look.
ghost use Rattle.rules.specs.Network.{links_of, insert, ases_of};
ghost use Rattle.network.specs.Gathering.{Gathering, Grown, Collected};

use super::{WORDS_PER_LINK, link_at, slot_of, slots};

// The ASes of the largest network.
const ASES: usize = 512;

// Gathers x behind n words if it is new; 0 always is. How many they are now, or none if there is no room for x: in the list of ASes, or in
// the table, of 2,048 homes and 64 slots more, past which no search goes. Word n is written in any case, which spares a branch.
// Kept (d): words and count side by side, since a struct for them (`Gathered { seen, met, n }`, calls `gathered.meet(l.a)?`) would serve this
// private function alone: the words are the caller's, who sorts them, and word n, behind those that count, is written. 0 in `met` is an
// empty slot, as in slots.rt.
fn meet(seen: &mut [u32; 513], met: &mut [u32; 2112], n: usize, x: u32) -> Option<usize>
    requires { Gathering seen.old met.old n }
    ensures { Grown (insert x) seen.old met.old n seen.new met.new result }
{
    let h = slot_of(x);
    let s = h + slots::find_as(&met[h..], x)?;
    let held = met[s];
    met[s] = x;
    seen[n] = x;
    // (the count first and the refusal after it, so that the branch is on the refusal and never goes)
    let known = if held == 0 { n + 1 } else { n };
    (known <= ASES).then_some(known)
}

// Gathers the ends of all links. How many words they are; none if they are too many.
pub fn gather(words: &[u32], seen: &mut [u32; 513]) -> Option<usize>
    ensures { Collected seen.new (ases_of (links_of words.now)) result }
{
    let mut met = [0u32; 2112];
    let mut n = 0;
    for i in 0..words.len() / WORDS_PER_LINK {
        let l = link_at(words, i);
        n = meet(seen, &mut met, n, l.a)?;
        n = meet(seen, &mut met, n, l.b)?;
    }
    Some(n)
}
