// Tables entry by entry: what each gets, and the pairs before anything is told.
ghost use Rattle.std.specs.Prelude.{◌+◌, ◌*◌, ◌≤◌, ◌<◌, ◌≡◌, ℕ, List, ◌++◌, length, drop};
ghost use Rattle.rules.specs.Stable.{Routing, table_of};
ghost use Rattle.offers.specs.Lines.{with_entry, fresh_lines, Laying};

use crate::WORDS_PER_ENTRY;
use rules::TypeLength;

// The pair of an AS before anything is told.
#[tactic(auto, using(crate::proofs::FreshLaws::fresh_own, crate::proofs::FreshLaws::fresh_other))]
pub fn first_pair(number: u32, destination: u32) -> TypeLength
    ensures { result ≡ (fresh_lines destination number).pair }
{
    if number == destination {
        TypeLength::ORIGIN
    } else {
        TypeLength::UNREACHABLE
    }
}

// Entry i gets an AS and a pair, with the AS itself as next hop.
fn put_entry(t: &mut [u32], i: usize, number: u32, pair: TypeLength)
    requires { 4 * i + 4 ≤ length t.old }
    ensures { t.new ≡ with_entry t.old i number (record { pair = pair; next = number }) }
{
    t[WORDS_PER_ENTRY * i] = number;
    crate::put_line(t, i, pair, number);
}

// Kept (d): n beside the table, since the callers' clauses say that words behind the first 4n stay: over a cut table, `&mut t[..4 * n]`, each
// would join what was cut off again.
// The first n entries get the ASes and pairs that are given for their places, with the ASes themselves as next hops.
pub fn lay_entries<F: Fn(usize) -> (u32, TypeLength)>(t: &mut [u32], n: usize, entry: F)
    requires room { 4 * n ≤ length t.old }
    requires given { (i : ℕ) → i < n → F.pre entry i }
    ensures { (us : List ℕ) (lines : Routing) → Laying (F.post entry) n us lines → t.new ≡ table_of lines us ++ drop (4 * n) t.old }
{
    for i in 0..n {
        let (number, pair) = entry(i);
        put_entry(t, i, number, pair);
    }
}
