// What the writer and the judge ask of the lines of a table: refusal 11.
ghost use Rattle.std.specs.Prelude.{◌*◌, min, ◌≡◌, length};
ghost use Rattle.rules.specs.Judge.{entries_of, standing};
ghost use Rattle.sheet.specs.Entries.{fault_of_table};

use super::rows;
use super::rows::WORDS_PER_LINE;
use rules::Refusal;

/// The smaller of two counts.
// Kept (a): public, a row of docs/PROMISES.md and the edit `shorter_is_longer` hold it; callers say `min`.
pub fn shorter(n: usize, m: usize) -> usize
    ensures { result ≡ min n m }
{
    n.min(m)
}

/// Refusal 11 of a table of as many lines as there are ASes: the lowest line that cannot stand.
#[tactic(auto, using(std::proofs::lemmas::Grind::common_steps, crate::proofs::StandingLaws::standing_steps))]
pub fn lines_fault(ases: &[u32], table: &[u32], bound: u32) -> Result<(), Refusal>
    requires { length table.now ≡ 4 * length ases.now }
    ensures { result ≡ standing bound ases.now (entries_of table.now) }
{
    for (i, u) in ases.iter().enumerate() {
        let row = rows::row_at(table, i);
        if !row.stands(*u, bound) {
            return Err(Refusal::CannotStand(i));
        }
    }
    Ok(())
}

/// Refusal 11 of any table: missing or surplus lines and words have the shorter count as place.
#[tactic(auto, using(std::proofs::lemmas::Grind::common_steps, crate::proofs::StandingLaws::table_order))]
pub(crate) fn table_fault(ases: &[u32], table: &[u32], bound: u32) -> Result<(), Refusal>
    ensures { result ≡ fault_of_table bound ases.now table.now }
{
    let n = ases.len();
    let k = n.min(table.len() / WORDS_PER_LINE);
    lines_fault(&ases[..k], &table[..WORDS_PER_LINE * k], bound)?;
    if table.len() == WORDS_PER_LINE * n {
        Ok(())
    } else {
        Err(Refusal::CannotStand(k))
    }
}
