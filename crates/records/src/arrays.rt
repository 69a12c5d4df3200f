// For callers that hold up to sixteen links by value: the first n of the array are lent on.
// Kept (a): array and number side by side: `check_links(links, n)` and `load(links, n)` are public, each a row of docs/PROMISES.md.
ghost use Rattle.std.specs.Prelude.{◌≡◌, take};
ghost use Rattle.rules.specs.Network.{flat};
ghost use Rattle.rules.specs.Checks.{base_limits, check_words};
ghost use Rattle.records.specs.Entries.{loaded};

use super::Words;
use rules::{Link, Refusal};

// The first n of sixteen links; all of them where n is more.
fn first(links: &[Link; 16], n: usize) -> &[Link]
    ensures { result.now ≡ take n links.now }
{
    &links[..n.min(16)]
}

// The check of the first n links.
pub fn check_links(links: [Link; 16], n: usize) -> Result<usize, Refusal>
    ensures { result ≡ check_words base_limits (flat (take n links)) }
{
    super::check_links(first(&links, n))
}

// The first n links by value, for the entries of `loaded`.
pub fn load(links: [Link; 16], n: usize) -> Words
    ensures { result ≡ loaded (take n links) }
{
    super::load(first(&links, n))
}
