// The pass that finds every AS's best offer, one direction after the other. A line is stored only where an offer wins, and offers are
// compared only where the neighbour's type goes on over the link: each is one branch, whose test has none inside.
// Kept (a): kinds and types are numbers, as `extend_type` and `TypeLength`, public in `rules`, have them.
ghost use Rattle.std.specs.Prelude.{◌+◌, ◌*◌, ◌≤◌, ◌≡◌, true, cond, eqb, length};
ghost use Rattle.rules.specs.Network.{links_of, ases_of};
ghost use Rattle.offers.specs.Lines.{type_word};
ghost use Rattle.offers.specs.Steps.{is_passed_on, told_offer, Telling};
ghost use Rattle.offers.specs.Electing.{entry_offer, with_better, with_heard, Electing, Hearer, Hearing};

use crate::{Offered, Way};
use rules::TypeLength;

// The offer that entry i stands for.
// Kept (a): `4 * i + 4 ≤ length t` here, in `keep_better` and in fresh.rt, as in lib.rt: a table is words that callers lend.
pub fn offer_at(t: &[u32], i: usize) -> Offered
    requires { 4 * i + 4 ≤ length t.now }
    ensures { result ≡ entry_offer t.now i }
{
    crate::offer_of(crate::pair_at(t, i), crate::next_at(t, i))
}

// Entry i keeps the better of its offer and another.
#[tactic(auto, using(crate::proofs::ConsiderLaws::keep_new, crate::proofs::ConsiderLaws::keep_old))]
pub fn keep_better(t: &mut [u32], i: usize, new: Offered)
    requires { 4 * i + 4 ≤ length t.old }
    ensures { t.new ≡ with_better t.old i new }
{
    if new.wins(offer_at(t, i)) {
        crate::put_line(t, i, new.pair, new.next);
    }
}

// The last type that goes on over a link of this kind, if it is one.
fn last_over(kind: u32) -> u32
    ensures { result ≡ cond (eqb kind 3) 3 1 }
{
    if kind == 3 { 3 } else { 1 }
}

// Whether a neighbour's type goes on over a link of this kind: over a provider link every reachable one, over another type 1 alone.
#[tactic(auto, using(crate::proofs::FlatLaws::goes_tests))]
pub fn goes_on(kind: u32, typ: u32) -> bool
    ensures { result ≡ is_passed_on kind typ }
{
    (1 <= kind) & (kind <= 3) & (1 <= typ) & (typ <= last_over(kind))
}

// What a pass goes over: the links, where their ends stand, and the table whose lines are told.
#[derive(Clone, Copy, Debug, PartialEq, Eq)]
pub struct Pass<'a> {
    pub words: &'a [u32],
    pub places: &'a [u32],
    pub told: &'a [u32],
    ghost electing: { Electing (links_of words.now) places.now told.now (length (ases_of (links_of words.now))) },
}

impl Pass<'_> {
    // What the neighbour's line gives over a direction that it goes on over: the kind is its type.
    #[tactic(auto, using(crate::proofs::ConsiderLaws::goes_over))]
    fn told_over(&self, way: Way) -> Offered
        requires { Telling way self.now.told.now × (is_passed_on way.kind (type_word self.now.told.now way.neighbour) ≡ true) }
        ensures { result ≡ told_offer self.now.told.now way }
    {
        let pair = crate::pair_at(self.told, way.neighbour);
        let gone = TypeLength {
            typ: way.kind,
            length: pair.length + way.cost,
        };
        crate::offer_of(gone, crate::number_at(self.told, way.neighbour))
    }

    // The hearer of a direction keeps the better of its offer and what it is told, which wins only if it goes on.
    #[tactic(auto, using(crate::proofs::ConsiderLaws::stays_out))]
    fn hear_over(&self, best: &mut [u32], way: Way)
        requires { Telling way self.now.told.now × Hearer best.old way }
        ensures { best.new ≡ with_better best.old way.hearer (told_offer self.now.told.now way) }
    {
        let pair = crate::pair_at(self.told, way.neighbour);
        if goes_on(way.kind, pair.typ) {
            keep_better(best, way.hearer, self.told_over(way));
        }
    }

    // Direction k.
    #[tactic(auto, using(network::proofs::PrefixLaws::count, crate::proofs::HearLaws::places_long, crate::proofs::HearLaws::heard_more))]
    pub fn hear(&self, best: &mut [u32], k: usize)
        requires { Hearing (links_of self.now.words.now) self.now.told.now best.old k }
        ensures { best.new ≡ with_heard (links_of self.now.words.now) self.now.told.now (k + 1) best.old }
    {
        self.hear_over(best, crate::way_at(self.words, self.places, k));
    }
}
