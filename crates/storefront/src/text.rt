// What is asked of a link text: it is read into words, three per link, and the rest is asked of these.
ghost use Rattle.std.specs.Prelude.{◌≡◌, length, Err, MatchResult};
ghost use Rattle.rules.specs.Checks.{base_limits};
ghost use Rattle.storefront.specs.Page.{final_sheet, final_table};
ghost use Rattle.linktext.specs.TextNetworks.{fault_of_network};
ghost use Rattle.storefront.specs.Steps.{Given, told_sheet, told_judging, told_findings, told_run};

use super::{pack, sheets, words};
use linktext::reading::read_scratch;
use machine::{MOST_CHOICES, MOST_DELIVERIES};
use network::WORDS_PER_LINK;
use rules::{Limits, Refusal};

// The words of the most links.
const LIST_WORDS: usize = WORDS_PER_LINK * Limits::BASE.links;

// The words of the text's links, read into the list; or the text's refusal.
fn read<'a>(text: &[u8], list: &'a mut [u32; LIST_WORDS]) -> Result<&'a [u32], Refusal>
    ensures { MatchResult result (λ ws. Given text.now ws.now) (λ why. fault_of_network base_limits text.now ≡ Err why) }
{
    let links = read_scratch(text, Limits::BASE, list)?;
    Ok(&list[..WORDS_PER_LINK * links])
}

// The sheet of the stable table: the number of bytes written.
pub fn sheet(text: &[u8], destination: u32, sheet: &mut [u8]) -> Result<u64, Refusal>
    ensures reply { result ≡ told_sheet text.now destination (length sheet.old) }
    ensures bytes { sheet.new ≡ final_sheet base_limits text.now destination sheet.old }
{
    let mut list = [0u32; LIST_WORDS];
    sheets::make(read(text, &mut list)?, destination, sheet)
}

// The judge on a sheet: 0 where it passes.
pub fn judge(text: &[u8], sheet: &[u8]) -> Result<u64, Refusal>
    ensures { result ≡ told_judging text.now sheet.now }
{
    if Limits::BASE.sheet < sheet.len() {
        return Err(Refusal::OverLimit);
    }
    let mut list = [0u32; LIST_WORDS];
    let links = read(text, &mut list)?;
    words::judge(links, sheet)?;
    Ok(0)
}

// The findings: 1 if a ring, plus 2 if joined.
pub fn find(text: &[u8]) -> Result<u64, Refusal>
    ensures { result ≡ told_findings text.now }
{
    let mut list = [0u32; LIST_WORDS];
    let found = words::find(read(text, &mut list)?)?;
    Ok(pack::found(found))
}

// A run: deliveries, idle choices and quiet; the table gets the lines of that moment.
pub fn run(
    text: &[u8],
    destination: u32,
    choices: &[u32],
    further: u32,
    table: &mut [u32],
) -> Result<u64, Refusal>
    ensures reply { result ≡ told_run text.now destination choices.now further (length table.old) }
    ensures table { table.new ≡ final_table base_limits text.now destination choices.now further table.old }
{
    if MOST_CHOICES < choices.len() || MOST_DELIVERIES < further {
        return Err(Refusal::OverLimit);
    }
    let mut list = [0u32; LIST_WORDS];
    let links = read(text, &mut list)?;
    let ran = words::run(links, destination, choices, further, table)?;
    Ok(pack::counted(ran))
}
