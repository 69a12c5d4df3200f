//! A look at ranks of ASes, by place: where they fall along every link from provider to customer, and stay above 0, nobody with a rank
//! above 0 is on a ring.
ghost use Rattle.std.specs.Prelude.{◌/◌, ◌≤◌, ◌≡◌, true, length};
ghost use Rattle.network.specs.Promises.{HasLink};
ghost use Rattle.findings.specs.Ranks.{may_fall, falls_at, Falls, Spared};

use crate::survey::{PROVIDES, Survey, Way};
use offers::scratch::ASES;

// Whether the lower rank may stand below the upper one.
fn may_fall(upper: u32, lower: u32) -> bool
    ensures { result ≡ may_fall upper lower }
{
    upper == 0 || (0 < lower && lower < upper)
}

// Whether the ranks fall along link i.
#[tactic(auto, unfolding(crate::specs::Tellings::teller, crate::specs::Tellings::hearer))]
fn falls_at(survey: &Survey<'_>, ranks: &[u32; ASES], i: usize) -> bool
    requires { HasLink survey.now.network.words.now i }
    ensures { result ≡ falls_at survey.now.network.words.now ranks.now i }
{
    let (provider, customer) = survey.ends(Way::Down, i);
    network::link_at(survey.network.words, i).relation != PROVIDES
        || may_fall(ranks[provider], ranks[customer])
}

/// Whether they fall along every link.
pub fn fall(survey: &Survey<'_>, ranks: &[u32; ASES]) -> bool
    ensures { result ≡ true → Falls survey.now.network.words.now ranks.now (length survey.now.network.words.now / 3) }
{
    (0..survey.network.links()).all(|i| falls_at(survey, ranks, i))
}

/// All who have a rank are taken away.
#[tactic(auto, using(crate::proofs::RankLaws::spares))]
pub fn spare(left: &mut [u32], ranks: &[u32; ASES])
    requires { length left.old ≤ 512 }
    ensures { Spared ranks.now left.old left.new }
{
    // Kept (d): one place in two lists. In `iter_mut().enumerate()` the other list would still be read by index, and of `iter_mut().zip(ranks)`
    // std does not say what the words are afterwards; so too in `peel_unmet` (ring.rt).
    for p in 0..left.len() {
        if ranks[p] != 0 {
            left[p] = 0;
        }
    }
}
