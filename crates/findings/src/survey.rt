//! A network with the places of its links' ends, and passes over its links.
ghost use Rattle.std.specs.Prelude.{◌*◌, ◌/◌, ◌≤◌, ◌≡◌, length};
ghost use Rattle.rules.specs.Network.{links_of, ases_of};
ghost use Rattle.offers.specs.Ways.{places_of};

use network::Network;

/// Way over a link: down from a to b, or up from b to a.
#[derive(Clone, Copy, Debug, PartialEq, Eq)]
pub enum Way {
    Down,
    Up,
}

// Kept (a): relations are numbers, as `Link::relation` of the crate rules is one.
/// Between peers.
pub const PEERS: u32 = 0;

/// From a provider, a, to its customer, b.
pub const PROVIDES: u32 = 1;

/// Accepted links with how many ASes they name, and with two words per link that say where its ends a and b stand among the ascending ASes.
#[derive(Clone, Copy, Debug, PartialEq, Eq)]
pub struct Survey<'a> {
    pub network: Network<'a>,
    pub places: &'a [u32],
    ghost placed: { places.now ≡ places_of (ases_of (links_of network.words.now)) (links_of network.words.now) },
    ghost two_each: { length places.now ≡ 2 * (length network.words.now / 3) },
    ghost counted: { network.ases ≡ length (ases_of (links_of network.words.now)) },
    ghost few_ases: { network.ases ≤ 512 },
    ghost few_links: { length network.words.now ≤ 4608 },
}

// Kept (d): `HasFlags`, a flag for each AS, in the contracts of seventeen functions. A struct of survey and lists would carry that fact,
// but each of its methods would have to say instead that the survey and who is served stay, and where both loans lead: four clauses in
// place of one.
// Kept (a): a flag is a word, 1 or 0, since the lists of flags are words of the lent room (`find`, `find_accepted`).
// Kept (d): `HasLink` of a link's number, and `p < ases` of a place, in four contracts each (here, marks.rt, ranks.rt, tops.rt): a type for
// such a number would have to carry the network, and each call to show that it is this one.
impl<'a> Survey<'a> {
    ghost use Rattle.std.specs.Prelude.{ℕ, ◌<◌, ◌≡◌, [], ◌∷◌};
    ghost use Rattle.network.specs.Promises.{HasLink};
    ghost use Rattle.rules.specs.Network.{links_of, link_in_words};
    ghost use Rattle.findings.specs.Flags.{place};
    ghost use Rattle.findings.specs.Surveys.{HasFlags};
    ghost use Rattle.findings.specs.Tellings.{teller, hearer, Told};

    /// Where who tells over link i stands, and where who hears.
    #[tactic(auto, using(crate::proofs::TellerLaws::placed_ends), unfolding(crate::specs::Tellings::teller, crate::specs::Tellings::hearer))]
    pub fn ends(&self, way: Way, i: usize) -> (usize, usize)
        requires { HasLink self.now.network.words.now i }
        ensures teller { result.0 ≡ place self.now.network.words.now (teller way (link_in_words self.now.network.words.now i)) }
        ensures hearer { result.1 ≡ place self.now.network.words.now (hearer way (link_in_words self.now.network.words.now i)) }
        ensures within { (result.0 < self.now.network.ases) × (result.1 < self.now.network.ases) }
    {
        let a = self.places[2 * i] as usize;
        let b = self.places[2 * i + 1] as usize;
        match way {
            Way::Down => (a, b),
            Way::Up => (b, a),
        }
    }

    /// Shows each link of a relation: its number, and where its ends a and b stand.
    pub fn each_link<F: FnMut(usize, usize, usize)>(&self, relation: u32, mut show: F)
        requires { (state : F) (i a b : ℕ) → i < 1536 → a < 512 → b < 512 → F.pre state i a b }
    {
        for i in 0..self.network.links() {
            if network::link_at(self.network.words, i).relation == relation {
                let (a, b) = self.ends(Way::Down, i);
                show(i, a, b);
            }
        }
    }

    /// The pass over link i: if it has the relation, and the AS that tells has its flag set, the flag of the one that hears is set.
    #[tactic(auto, using(crate::proofs::TellLaws::told_link))]
    pub fn tell_over(&self, relation: u32, way: Way, i: usize, from: &[u32], to: &mut [u32])
        requires within { HasLink self.now.network.words.now i }
        requires sizes { HasFlags self.now from.now × HasFlags self.now to.old }
        ensures { Told self.now.network.words.now relation way from.now (link_in_words self.now.network.words.now i ∷ []) to.old to.new }
    {
        let (teller, hearer) = self.ends(way, i);
        if network::link_at(self.network.words, i).relation == relation && from[teller] == 1 {
            to[hearer] = 1;
        }
    }

    /// The pass over all links.
    #[tactic(auto, using(crate::proofs::TellLaws::going))]
    pub fn tell(&self, relation: u32, way: Way, from: &[u32], to: &mut [u32])
        requires { HasFlags self.now from.now × HasFlags self.now to.old }
        ensures { Told self.now.network.words.now relation way from.now (links_of self.now.network.words.now) to.old to.new }
    {
        for i in 0..self.network.links() {
            self.tell_over(relation, way, i, from, to);
        }
    }
}
