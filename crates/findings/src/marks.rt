//! Peers of one AS, met quickly: over the peer links noted for it alone. Whoever is met so is a peer; that all peers are met is not proved:
//! where a top is missed, the passes over all links (tops.rt) have the last word.
ghost use Rattle.std.specs.Prelude.{◌<◌};
ghost use Rattle.network.specs.Promises.{HasLink};
ghost use Rattle.findings.specs.Surveys.{HasFlags};
ghost use Rattle.findings.specs.Joinings.{Hinted};

use crate::survey::{PEERS, Survey, Way};
use offers::scratch;

// Where the heads of an index (offers::scratch) of directions begin: one for each AS.
const HEADS: usize = 2 * scratch::LINKS;

/// How many words the index has.
pub const INDEX: usize = HEADS + scratch::ASES;

/// Notes both directions of each peer link, under the AS that tells.
pub fn note_peers(survey: &Survey<'_>, index: &mut [u32]) {
    survey.each_link(PEERS, |i, a, b| {
        scratch::note(index, HEADS + b, 2 * i);
        scratch::note(index, HEADS + a, 2 * i + 1);
    });
}

// The chosen AS tells over link i, either way.
#[tactic(auto, using(crate::proofs::HintLaws::hints))]
fn meet_over(survey: &Survey<'_>, i: usize, chosen: &[u32], met: &mut [u32])
    requires within { HasLink survey.now.network.words.now i }
    requires sizes { HasFlags survey.now chosen.now × HasFlags survey.now met.old }
    ensures { Hinted survey.now.network.words.now chosen.now met.old met.new }
{
    survey.tell_over(PEERS, Way::Down, i, chosen, met);
    survey.tell_over(PEERS, Way::Up, i, chosen, met);
}

/// The peers of the AS at place p, which is chosen, are met.
#[tactic(auto, using(crate::proofs::HintLaws::hints))]
pub fn meet_noted_peers(
    survey: &Survey<'_>,
    index: &[u32],
    p: usize,
    chosen: &[u32],
    met: &mut [u32],
)
    requires within { p < survey.now.network.ases }
    requires sizes { HasFlags survey.now chosen.now × HasFlags survey.now met.old }
    ensures { Hinted survey.now.network.words.now chosen.now met.old met.new }
{
    // Kept (d): the iterator over such an index is `Noted`, private in table: here it would be public in `offers`, `under` and `next` with
    // contracts of their own, to spare this walk the line that steps on.
    let mut noted = scratch::at(index, HEADS + p);
    while 0 < noted {
        let i = ((noted - 1) / 2) as usize;
        if i < survey.network.links() {
            meet_over(survey, i, chosen, met);
        }
        noted = scratch::noted_before(index, noted);
    }
}
