// What a C or Rust program links: an export for each function of `storefront` that the storefront's server calls, under the same name and
// with its clauses again.
// Kept (a): the exports are the C interface, on numbers and slices and with the clauses that hold for a C program; `storefront` stays a library
// that other crates can depend on, which a static library cannot be.
#![tactic(auto)]

ghost use Rattle.std.specs.Prelude.{◌≡◌, length};
ghost use Rattle.rules.specs.Checks.{base_limits};
ghost use Rattle.rules.specs.Network.{flat};
ghost use Rattle.storefront.specs.Page.{
  sheet_reply,
  final_sheet,
  judge_reply,
  findings_reply,
  run_reply,
  final_table,
  check_reply,
  PageTabled,
};

use rules::Link;
use storefront::links;

// A link text to the sheet of its stable table: the number of bytes written.
#[unsafe(no_mangle)]
pub extern "C" fn bostuvrel_sheet(text: &[u8], destination: u32, sheet: &mut [u8]) -> u64
    ensures reply { result ≡ sheet_reply base_limits text.now destination (length sheet.old) }
    ensures bytes { sheet.new ≡ final_sheet base_limits text.now destination sheet.old }
{
    storefront::bostuvrel_sheet(text, destination, sheet)
}

// The judge on a sheet for the links of a text: 0 where it passes.
#[unsafe(no_mangle)]
pub extern "C" fn bostuvrel_judge(text: &[u8], sheet: &[u8]) -> u64
    ensures { result ≡ judge_reply base_limits 511 text.now sheet.now }
{
    storefront::bostuvrel_judge(text, sheet)
}

// The findings on the links of a text: 1 if a ring, plus 2 if joined.
#[unsafe(no_mangle)]
pub extern "C" fn bostuvrel_findings(text: &[u8]) -> u64
    ensures { result ≡ findings_reply base_limits text.now }
{
    storefront::bostuvrel_findings(text)
}

// A run over the links of a text: deliveries, idle choices and quiet; the table gets the lines of that moment.
#[unsafe(no_mangle)]
pub extern "C" fn bostuvrel_run(
    text: &[u8],
    destination: u32,
    choices: &[u32],
    further: u32,
    table: &mut [u32],
) -> u64
    ensures reply { result ≡ run_reply base_limits text.now destination choices.now further (length table.old) }
    ensures table { table.new ≡ final_table base_limits text.now destination choices.now further table.old }
{
    storefront::bostuvrel_run(text, destination, choices, further, table)
}

// The check of link records: the number of their ASes.
#[unsafe(no_mangle)]
pub extern "C" fn bostuvrel_check(links: &[Link]) -> u64
    ensures { result ≡ check_reply base_limits (flat links.now) }
{
    links::bostuvrel_check(links)
}

// The stable table of link records: the number of table words written, four per AS.
#[unsafe(no_mangle)]
pub extern "C" fn bostuvrel_table(links: &[Link], destination: u32, table: &mut [u32]) -> u64
    ensures { PageTabled base_limits (flat links.now) destination table.old result table.new }
{
    links::bostuvrel_table(links, destination, table)
}
