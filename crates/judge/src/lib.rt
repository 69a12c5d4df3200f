// The judge of a route sheet: it works from the sheet's lines and the links, and never computes the stable table.
#![tactic(auto, unfolding(rules::specs::Network::links_of, rules::specs::Judge::words_of, sheet::specs::Form::fault_of_form, sheet::specs::Form::lines_from, crate::specs::Steps::fault_of_lines, rules::specs::Checks::check_words, sheet::specs::Entries::judge_reply, crate::specs::Steps::fault_of_sheet, rules::specs::Judge::entries_of, rules::specs::Judge::is_same_line, crate::specs::Steps::differ_from))]

ghost use Rattle.std.specs.Prelude.{◌≡◌, length};
ghost use Rattle.rules.specs.Network.{links_of};
ghost use Rattle.rules.specs.Checks.{base_limits};
ghost use Rattle.sheet.specs.Entries.{judge_reply};
ghost use Rattle.judge.specs.Judging.{Judged};
ghost use Rattle.judge.specs.Steps.{fault_of_sheet};

use network::Network;
use rules::{Limits, Refusal};
use sheet::reading;

mod best;
mod lines;

/// Judges a sheet for the links: it passes, or refusals 1, 2 to 6, 8 (room), 10, 7, 11, 12. The lent room is zero after a sheet that
/// passes, and stays as it was after a refusal.
pub fn judge_sheet(words: &[u32], sheet: &[u8], room: &mut [u32]) -> Result<(), Refusal>
    ensures { Judged base_limits 511 words.now sheet.now room.old result room.new }
{
    check_sheet(words, sheet, room.len())?;
    room.fill(0);
    Ok(())
}

/// What the judge says where so many words of room are lent.
fn check_sheet(words: &[u32], sheet: &[u8], room: usize) -> Result<(), Refusal>
    ensures { result ≡ judge_reply base_limits 511 words.now sheet.now room }
{
    if Limits::BASE.sheet < sheet.len() {
        return Err(Refusal::OverLimit);
    }
    judge_network(Network::check(words)?, sheet, room)
}

/// Refusals 8 (room), 10, 7, 11, 12 of a sheet for a network.
#[tactic(auto, using(std::proofs::lemmas::Grind::common_steps, crate::proofs::NetworkLaws::network_facts))]
fn judge_network(network: Network<'_>, sheet: &[u8], room: usize) -> Result<(), Refusal>
    ensures { result ≡ fault_of_sheet 511 (links_of network.entry.words.now) sheet.now room }
{
    if room < network::room_need(network.links(), network.ases) {
        return Err(Refusal::RoomShort);
    }
    reading::form_fault(sheet)?;
    let mut ases = [0u32; Limits::BASE.ases];
    let n = network::list_ases(network.words, &mut ases);
    lines::judge_lines(network, &ases[..n], sheet)
}
