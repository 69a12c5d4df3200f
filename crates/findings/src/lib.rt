//! Two findings on a network: whether it has a customer ring, and whether it is joined.
#![tactic(auto)]

ghost use Rattle.std.specs.Prelude.{◌+◌, ◌*◌, ◌/◌, ◌≤◌, ◌≡◌, length, replicate, Ok};
ghost use Rattle.rules.specs.Network.{links_of};
ghost use Rattle.rules.specs.Findings.{ringed, joined};
ghost use Rattle.rules.specs.Checks.{base_limits, check_words};
ghost use Rattle.findings.specs.Surveys.{HasFlags};
ghost use Rattle.findings.specs.Entries.{findings_reply, final_room};

use network::Network;
use rules::{Limits, Refusal};
use survey::Survey;

mod marks;
mod order;
mod ranks;
mod ring;
mod survey;
mod tops;

/// Whether there is a customer ring, and whether the network is joined.
#[derive(Clone, Copy, Debug, PartialEq, Eq)]
pub struct Found {
    pub ring: bool,
    pub joined: bool,
}

// The findings with four lists of flags: who is not peeled off, who has a provider, who is the top that is compared with the others, and
// whom a pass over the links met.
#[tactic(auto, using(crate::proofs::EntryLaws::starts))]
fn look(
    survey: Survey<'_>,
    left: &mut [u32],
    served: &mut [u32],
    chosen: &mut [u32],
    met: &mut [u32],
) -> Found
    requires peeled { HasFlags survey left.old × HasFlags survey served.old }
    requires compared { HasFlags survey chosen.old × HasFlags survey met.old }
    ensures ring { result.ring ≡ ringed (links_of survey.entry.network.words.now) }
    ensures joined { result.joined ≡ joined (links_of survey.entry.network.words.now) }
{
    tops::start(&survey, left, served);
    let joined = tops::is_joined(survey, served, chosen, met);
    let ring = ring::has_ring(&survey, left, met);
    Found { ring, joined }
}

// The findings on accepted links in a room that suffices, which is zero afterwards: two words per link for the places of its ends, then a
// word per AS for each list of flags.
#[tactic(auto, using(std::proofs::lemmas::Grind::common_steps, crate::proofs::EntryLaws::accepted))]
fn look_in(network: Network<'_>, room: &mut [u32]) -> Found
    requires { 8 * (length network.words.now / 3) + 8 * network.ases ≤ length room.old }
    ensures ring { result.ring ≡ ringed (links_of network.entry.words.now) }
    ensures joined { result.joined ≡ joined (links_of network.entry.words.now) }
    ensures room_after { room.new ≡ replicate (length room.old) 0 }
{
    let mut list = [0u32; Limits::BASE.ases];
    let n = network::list_ases(network.words, &mut list);
    let (places, flags) = room.split_at_mut(2 * network.links());
    offers::place_ends(network.words, &list, n, places);
    let survey = Survey { network, places };
    let (left, flags) = flags.split_at_mut(n);
    let (served, flags) = flags.split_at_mut(n);
    let (chosen, flags) = flags.split_at_mut(n);
    let found = look(survey, left, served, chosen, &mut flags[..n]);
    room.fill(0);
    found
}

// The findings on accepted links, or the refusal of a room that is too short.
#[tactic(auto, using(crate::proofs::EntryLaws::accepted, crate::proofs::EntryLaws::replies))]
fn find_in(network: Network<'_>, room: &mut [u32]) -> Result<Found, Refusal>
    ensures value { result ≡ findings_reply base_limits network.entry.words.now (length room.old) }
    ensures room_after { room.new ≡ final_room base_limits network.entry.words.now room.old }
{
    if room.len() < network::room_need(network.links(), network.ases) {
        return Err(Refusal::RoomShort);
    }
    Ok(look_in(network, room))
}

/// The findings on link words that the check accepted, three per link, with `n` ASes; or `RoomShort` where the room has fewer words than
/// `network::room_need` says. The room is zero afterwards; a refusal leaves it as it was.
// Kept (a): public, with words, count and clause apart, where `find_in` takes a `Network`.
pub fn find_accepted(words: &[u32], n: usize, room: &mut [u32]) -> Result<Found, Refusal>
    requires { check_words base_limits words.now ≡ Ok n }
    ensures value { result ≡ findings_reply base_limits words.now (length room.old) }
    ensures room_after { room.new ≡ final_room base_limits words.now room.old }
{
    find_in(Network { words, ases: n }, room)
}

/// Whether the network of these link words, three per link, has a customer ring, and whether it is joined; or the refusal of the links, or
/// `RoomShort` where the room has fewer words than `network::room_need` says. The room is zero afterwards; a refusal leaves it as it was.
#[tactic(auto, using(crate::proofs::EntryLaws::replies))]
pub fn find(words: &[u32], room: &mut [u32]) -> Result<Found, Refusal>
    ensures value { result ≡ findings_reply base_limits words.now (length room.old) }
    ensures room_after { room.new ≡ final_room base_limits words.now room.old }
{
    find_in(Network::check(words)?, room)
}
