// Refusal 12: each line against the one that is due where the others are as printed.
ghost use Rattle.std.specs.Prelude.{◌*◌, ◌≤◌, ◌<◌, ◌≡◌, length, get_or};
ghost use Rattle.rules.specs.Network.{links_of, ases_of, arcs_of};
ghost use Rattle.rules.specs.Judge.{entries_of, is_same_line, best_offers};
ghost use Rattle.sheet.specs.Places.{entry_of};
ghost use Rattle.judge.specs.Steps.{differ_from, Told, with_due};

use network::Network;
use rules::{Limits, Refusal, TypeLength};
use sheet::rows;
use sheet::rows::{Row, WORDS_PER_LINE};

/// The lines that a sheet prints, as table words: one for each AS of a network, in order.
// Kept (d): network and ASes with the fact `listed`, as in sheet (`Draft`), table (`Question`) and machine (`Order`): a public type of
// `network` for both would need a maker that lends the list and repeats the clause of `list_ases`, and each of these structs would still be
// built once and read through one field more.
#[derive(Clone, Copy, Debug, PartialEq, Eq)]
pub struct Printed<'a> {
    pub network: Network<'a>,
    pub ases: &'a [u32],
    pub lines: &'a [u32],
    ghost listed: { ases.now ≡ ases_of (links_of network.words.now) },
    ghost told: { Told ases.now lines.now },
}

impl Printed<'_> {
    /// Refusal 12 of the lines, for the destination at a place of the ASes.
    #[tactic(auto, using(std::proofs::lemmas::Grind::common_steps, crate::proofs::NetworkLaws::network_facts))]
    pub fn judge(self, at: usize) -> Result<(), Refusal>
        requires { at < length self.ases.now }
        ensures { result ≡ best_offers (arcs_of (links_of self.entry.network.words.now)) (get_or self.entry.ases.now at 0) (entries_of self.entry.lines.now) }
    {
        let mut due = [0u32; WORDS_PER_LINE * Limits::BASE.ases];
        self.put_due(at, &mut due);
        first_difference(self.lines, &due[..WORDS_PER_LINE * self.ases.len()])
    }

    /// The lines that are due: the destination's is origin, any other the best offer of what the neighbours' lines tell.
    fn put_due(self, at: usize, due: &mut [u32])
        requires { (at < length self.ases.now) × (4 * length self.ases.now ≤ length due.old) }
        ensures { due.new ≡ with_due (links_of self.entry.network.words.now) (get_or self.entry.ases.now at 0) self.entry.lines.now self.entry.ases.now due.old }
    {
        let n = self.ases.len();
        let mut places = [0u32; 2 * Limits::BASE.links];
        offers::place_ends(self.network.words, self.ases, n, &mut places);
        offers::elect_links(self.network.words, &places, self.lines, due, n);
        offers::put_line(due, at, TypeLength::ORIGIN, self.ases[at]);
    }
}

/// The lowest line printed that is not the one due.
#[tactic(auto, using(std::proofs::lemmas::Grind::common_steps, crate::proofs::DifferLaws::differ_steps))]
fn first_difference(lines: &[u32], due: &[u32]) -> Result<(), Refusal>
    requires { length due.now ≡ length lines.now }
    ensures { result ≡ differ_from 0 (entries_of lines.now) (entries_of due.now) }
{
    for i in 0..lines.len() / WORDS_PER_LINE {
        if !is_same_line(rows::row_at(lines, i), rows::row_at(due, i)) {
            return Err(Refusal::NotBest(i));
        }
    }
    Ok(())
}

/// The same type, length and next hop.
// Kept (a): the four fields of `Row` are public; a struct of the last three that derives `Eq` would change them.
fn is_same_line(told: Row, best: Row) -> bool
    ensures { result ≡ is_same_line (entry_of told).line (entry_of best).line }
{
    (told.typ, told.length, told.next) == (best.typ, best.length, best.next)
}
