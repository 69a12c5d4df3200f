// What the server calls with link records: they are loaded once, and what is said is said of their words.
ghost use Rattle.std.specs.Prelude.{◌≡◌};
ghost use Rattle.rules.specs.Network.{flat};
ghost use Rattle.rules.specs.Checks.{base_limits, check_words};
ghost use Rattle.records.specs.Entries.{Holding};
ghost use Rattle.storefront.specs.Page.{check_reply, PageTabled};
ghost use Rattle.storefront.specs.Steps.{Tabulated};

use super::{pack, words};
use records::Words;
use rules::{Link, Refusal};

// The check of link records: the number of their ASes.
pub fn bostuvrel_check(links: &[Link]) -> u64
    ensures { result ≡ check_reply base_limits (flat links.now) }
{
    pack::reply(check(links))
}

// The same before it is packed.
fn check(links: &[Link]) -> Result<u64, Refusal>
    ensures { result ≡ check_words base_limits (flat links.now) }
{
    Ok(records::check_links(links)? as u64)
}

// The stable table of link records: the number of table words written, four per AS.
pub fn bostuvrel_table(links: &[Link], destination: u32, table: &mut [u32]) -> u64
    ensures { PageTabled base_limits (flat links.now) destination table.old result table.new }
{
    pack::reply(tabulate(&records::load(links), destination, table))
}

// The same of loaded links, before it is packed.
fn tabulate(list: &Words, destination: u32, table: &mut [u32]) -> Result<u64, Refusal>
    ensures { Holding list.now (λ ws. Tabulated ws destination table.old result table.new) }
{
    words::stable_table(list.link_words()?, destination, table)
}
