// Refusals 7, 11 and 12 of a sheet of right form.
//
// Kept (d): `fault_of_form sheet ≡ Ok tt` in the contracts of `judge_lines` and `put_lines`: `destination`, `line_count` and `read_lines`
// of sheet are public over bytes, so that a type for a sheet of right form would be made here once and opened again at each of these calls.
ghost use Rattle.std.specs.Prelude.{◌*◌, ◌≤◌, min, ◌≡◌, length, drop, Ok};
ghost use Rattle.rules.specs.Network.{links_of, ases_of};
ghost use Rattle.rules.specs.Judge.{words_of, standing};
ghost use Rattle.sheet.specs.Form.{fault_of_form, count_of_lines, lines_from, lines_of};
ghost use Rattle.sheet.specs.Places.{over};
ghost use Rattle.judge.specs.Steps.{fault_of_lines};

use super::best::Printed;
use network::Network;
use rules::{Limits, Refusal};
use sheet::rows::WORDS_PER_LINE;
use sheet::{LONGEST, reading, standing};

/// Refusals 7, 11 and 12 of a sheet for a network with these ASes.
#[tactic(auto, using(std::proofs::lemmas::Grind::common_steps, sheet::proofs::WriteLaws::draft_order, crate::proofs::NetworkLaws::network_facts))]
pub fn judge_lines(network: Network<'_>, ases: &[u32], sheet: &[u8]) -> Result<(), Refusal>
    requires { (ases.now ≡ ases_of (links_of network.words.now)) × (fault_of_form sheet.now ≡ Ok tt) }
    ensures { result ≡ fault_of_lines 511 (links_of network.entry.words.now) sheet.now }
{
    let place = network::place_of(ases, ases.len(), reading::destination(sheet));
    let at = place.ok_or(Refusal::NoDestination)?;
    let mut told = [0u32; WORDS_PER_LINE * Limits::BASE.ases];
    put_lines(ases, sheet, &mut told)?;
    let printed = Printed {
        network,
        ases,
        lines: &told[..WORDS_PER_LINE * ases.len()],
    };
    printed.judge(at)
}

/// Refusal 11, and the sheet's lines as table words, up to the shorter count: missing or surplus lines have it as place.
#[tactic(auto, using(std::proofs::lemmas::Grind::common_steps, crate::proofs::StandLaws::lines_order))]
fn put_lines(ases: &[u32], sheet: &[u8], told: &mut [u32]) -> Result<(), Refusal>
    requires { (fault_of_form sheet.now ≡ Ok tt) × (4 * length ases.now ≤ length told.old) }
    ensures reply { result ≡ standing 511 ases.now (lines_of sheet.now) }
    ensures lines { told.new ≡ over (words_of (lines_from (min (length ases.now) (count_of_lines sheet.now)) (drop 10 sheet.now))) told.old }
{
    let count = reading::line_count(sheet);
    let k = ases.len().min(count);
    reading::read_lines(sheet, k, told);
    standing::lines_fault(&ases[..k], &told[..WORDS_PER_LINE * k], LONGEST)?;
    if count == ases.len() {
        Ok(())
    } else {
        Err(Refusal::CannotStand(k))
    }
}
