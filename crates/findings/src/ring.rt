//! The customer ring: ASes that have no customer left are peeled off, pass after pass. A ring is there if and only if one is left. Most
//! often ranks peel off all of them at once, so that one pass more ends it.
ghost use Rattle.std.specs.Prelude.{◌≡◌, length};
ghost use Rattle.rules.specs.Network.{links_of};
ghost use Rattle.rules.specs.Findings.{ringed};
ghost use Rattle.findings.specs.Surveys.{HasFlags};
ghost use Rattle.findings.specs.Peelings.{Peeled, Round, RingsLeft, Bare};

use crate::survey::{PROVIDES, Survey, Way};
use crate::{order, ranks};
use offers::scratch::ASES;

// Takes away who is left and not met. Whether there was one.
#[tactic(auto, using(crate::proofs::PeelLaws::peelings))]
fn peel_unmet(left: &mut [u32], met: &[u32]) -> bool
    requires { length left.old ≡ length met.now }
    ensures { Peeled (length left.old) met.now left.old left.new result }
{
    let mut any = false;
    for p in 0..left.len() {
        if left[p] == 1 && met[p] != 1 {
            left[p] = 0;
            any = true;
        }
    }
    any
}

// One pass: who has a customer left is met, who is not is taken away. Whether one was.
#[tactic(auto, using(crate::proofs::RoundLaws::rounds))]
fn peel(survey: &Survey<'_>, left: &mut [u32], met: &mut [u32]) -> bool
    requires { HasFlags survey.now left.old × HasFlags survey.now met.old }
    ensures { Round survey.now.network.words.now left.old left.new result }
{
    met.fill(0);
    survey.tell(PROVIDES, Way::Up, left, met);
    peel_unmet(left, met)
}

// Passes until one takes none away.
#[tactic(auto, using(crate::proofs::RoundLaws::strips))]
fn strip(survey: &Survey<'_>, left: &mut [u32], met: &mut [u32])
    requires { HasFlags survey.now left.old × HasFlags survey.now met.old }
    ensures { Bare survey.now.network.words.now left.old left.new }
{
    while peel(survey, left, met) {}
}

// Who has a rank is taken away at once, if the ranks show that none of them is on a ring.
#[tactic(auto, using(crate::proofs::RankLaws::ring_spares))]
fn peel_ranked(survey: &Survey<'_>, left: &mut [u32])
    requires size { HasFlags survey.now left.old }
    requires rings { RingsLeft survey.now.network.words.now left.old }
    ensures { RingsLeft survey.now.network.words.now left.new }
{
    let mut ranks = [0; ASES];
    order::rank(survey, &mut ranks);
    if ranks::fall(survey, &ranks) {
        ranks::spare(left, &ranks);
    }
}

/// Whether there is a customer ring, where every AS is left.
#[tactic(auto, using(crate::proofs::RoundLaws::rings_found))]
pub fn has_ring(survey: &Survey<'_>, left: &mut [u32], met: &mut [u32]) -> bool
    requires sizes { HasFlags survey.now left.old × HasFlags survey.now met.old }
    requires rings { RingsLeft survey.now.network.words.now left.old }
    ensures { result ≡ ringed (links_of survey.now.network.words.now) }
{
    peel_ranked(survey, left);
    strip(survey, left, met);
    left.contains(&1)
}
