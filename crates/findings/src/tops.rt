//! Whether the network is joined: every two different tops are peers. For each top its peers are marked, and a top that is not marked is
//! looked for: first with the marks from its own links, and where they miss a top, by passes over all links.
ghost use Rattle.std.specs.Prelude.{◌<◌, ◌≡◌, length};
ghost use Rattle.rules.specs.Network.{links_of};
ghost use Rattle.rules.specs.Findings.{joined};
ghost use Rattle.findings.specs.Surveys.{HasFlags};
ghost use Rattle.findings.specs.Joinings.{Everybody, Served, Chosen};

use crate::marks;
use crate::survey::{PEERS, PROVIDES, Survey, Way};

/// Every AS is left, and who has a provider is told so.
#[tactic(auto, using(crate::proofs::TopLaws::starts))]
pub fn start(survey: &Survey<'_>, left: &mut [u32], served: &mut [u32])
    requires { HasFlags survey.now left.old × HasFlags survey.now served.old }
    ensures left { Everybody survey.now.network.words.now left.new }
    ensures served { Served survey.now.network.words.now served.new }
{
    left.fill(1);
    served.fill(0);
    survey.tell(PROVIDES, Way::Down, left, served);
}

// The flag at place p alone is set.
#[tactic(auto, using(crate::proofs::TopLaws::alone))]
fn set_alone(flags: &mut [u32], p: usize)
    requires { p < length flags.old }
    ensures { Chosen p flags.new }
{
    flags.fill(0);
    flags[p] = 1;
}

/// The tops of a network: who has a provider, and the index by which peers are met quickly.
#[derive(Clone, Copy, Debug, PartialEq, Eq)]
pub struct Tops<'a> {
    pub survey: Survey<'a>,
    pub served: &'a [u32],
    pub index: &'a [u32],
    ghost size: { length served.now ≡ survey.network.ases },
    ghost told: { Served survey.network.words.now served.now },
}

impl<'a> Tops<'a> {
    ghost use Rattle.std.specs.Prelude.{◌<◌, ◌≡◌, true, false};
    ghost use Rattle.rules.specs.Network.{links_of};
    ghost use Rattle.rules.specs.Findings.{joined};
    ghost use Rattle.findings.specs.Flags.{flag_at};
    ghost use Rattle.findings.specs.Surveys.{HasFlags};
    ghost use Rattle.findings.specs.Joinings.{Peered, AllMet, meets_at};

    // The peers of the chosen AS are met.
    #[tactic(auto, using(crate::proofs::TopLaws::peers_met))]
    fn meet_peers(&self, chosen: &[u32], met: &mut [u32])
        requires { HasFlags self.now.survey chosen.now × HasFlags self.now.survey met.old }
        ensures { Peered self.now.survey.network.words.now chosen.now met.old met.new }
    {
        self.survey.tell(PEERS, Way::Down, chosen, met);
        self.survey.tell(PEERS, Way::Up, chosen, met);
    }

    // Whether every top is met. The two tests of a place are joined without a branch.
    fn all_met(&self, met: &[u32]) -> bool
        requires { HasFlags self.now.survey met.now }
        ensures { AllMet self.now.served.now met.now result }
    {
        self.served
            .iter()
            .zip(met)
            .all(|(served, met)| (*served == 1) | (*met == 1))
    }

    // Whether the top at place p is seen to be a peer of every other top, by its own links.
    #[tactic(auto, using(crate::proofs::MeetLaws::seemingly))]
    fn seems_met(&self, p: usize, chosen: &mut [u32], met: &mut [u32]) -> bool
        requires within { p < self.now.survey.network.ases }
        requires sizes { HasFlags self.now.survey chosen.old × HasFlags self.now.survey met.old }
        ensures { result ≡ true → meets_at self.now.survey.network.words.now p ≡ true }
    {
        set_alone(chosen, p);
        set_alone(met, p);
        marks::meet_noted_peers(&self.survey, self.index, p, chosen, met);
        self.all_met(met)
    }

    // Whether the top at place p is a peer of every other top, by all links.
    #[tactic(auto, using(crate::proofs::MeetLaws::surely))]
    fn meets_surely(&self, p: usize, chosen: &mut [u32], met: &mut [u32]) -> bool
        requires top { (p < self.now.survey.network.ases) × (flag_at self.now.served.now p ≡ false) }
        requires sizes { HasFlags self.now.survey chosen.old × HasFlags self.now.survey met.old }
        ensures { result ≡ meets_at self.now.survey.network.words.now p }
    {
        set_alone(chosen, p);
        set_alone(met, p);
        self.meet_peers(chosen, met);
        self.all_met(met)
    }

    // Whether the AS at place p is a peer of every other top, or no top.
    #[tactic(auto, using(crate::proofs::MeetLaws::unserved))]
    fn meets(&self, p: usize, chosen: &mut [u32], met: &mut [u32]) -> bool
        requires within { p < self.now.survey.network.ases }
        requires sizes { HasFlags self.now.survey chosen.old × HasFlags self.now.survey met.old }
        ensures { result ≡ meets_at self.now.survey.network.words.now p }
    {
        self.served[p] == 1 || self.seems_met(p, chosen, met) || self.meets_surely(p, chosen, met)
    }

    // Whether every AS is one.
    // Kept (c): tried, `(0..ases).all(|p| self.meets(p, chosen, met))`: the closure changes its two loans, and what std proves of `all` is for
    // one that changes nothing.
    #[tactic(auto, using(crate::proofs::MeetLaws::joinings))]
    fn all_meet(&self, chosen: &mut [u32], met: &mut [u32]) -> bool
        requires { HasFlags self.now.survey chosen.old × HasFlags self.now.survey met.old }
        ensures { result ≡ joined (links_of self.now.survey.network.words.now) }
    {
        for p in 0..self.survey.network.ases {
            if !self.meets(p, chosen, met) {
                return false;
            }
        }
        true
    }
}

/// Whether the network is joined, where who has a provider is known.
pub fn is_joined(survey: Survey<'_>, served: &[u32], chosen: &mut [u32], met: &mut [u32]) -> bool
    requires served { HasFlags survey served.now × Served survey.network.words.now served.now }
    requires sizes { HasFlags survey chosen.old × HasFlags survey met.old }
    ensures { result ≡ joined (links_of survey.entry.network.words.now) }
{
    let mut index = [0u32; marks::INDEX];
    marks::note_peers(&survey, &mut index);
    let tops = Tops {
        survey,
        served,
        index: &index,
    };
    tops.all_meet(chosen, met)
}
