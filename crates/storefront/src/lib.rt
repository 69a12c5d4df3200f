// What the storefront's server calls: link texts, sheets and tables as bytes and words, replies packed into one number. With link records
// instead of a text: `links`.
// Kept (a): replies are numbers, refusals too, here and in links.rt, since C programs get them as they are.
#![tactic(auto, unfolding(crate::specs::Page::sheet_reply, crate::specs::Page::final_sheet, crate::specs::Page::judge_reply, crate::specs::Page::findings_reply, crate::specs::Page::run_reply, crate::specs::Page::final_table, rules::specs::Checks::check_words, rules::specs::Judge::entries_of, sheet::specs::Form::sheet_of, rules::specs::Network::flat, crate::specs::Page::check_reply, machine::specs::Entries::final_table))]

ghost use Rattle.std.specs.Prelude.{◌≡◌, length};
ghost use Rattle.rules.specs.Checks.{base_limits};
ghost use Rattle.storefront.specs.Page.{sheet_reply, final_sheet, judge_reply, findings_reply, run_reply, final_table};

pub mod links;
mod pack;
mod sheets;
mod text;
mod words;

// A link text to the sheet of its stable table: the number of bytes written.
pub fn bostuvrel_sheet(text: &[u8], destination: u32, sheet: &mut [u8]) -> u64
    ensures reply { result ≡ sheet_reply base_limits text.now destination (length sheet.old) }
    ensures bytes { sheet.new ≡ final_sheet base_limits text.now destination sheet.old }
{
    pack::reply(text::sheet(text, destination, sheet))
}

// The judge on a sheet for the links of a text: 0 where it passes.
pub fn bostuvrel_judge(text: &[u8], sheet: &[u8]) -> u64
    ensures { result ≡ judge_reply base_limits 511 text.now sheet.now }
{
    pack::reply(text::judge(text, sheet))
}

// The findings on the links of a text: 1 if a ring, plus 2 if joined.
pub fn bostuvrel_findings(text: &[u8]) -> u64
    ensures { result ≡ findings_reply base_limits text.now }
{
    pack::reply(text::find(text))
}

// A run over the links of a text: deliveries, idle choices and quiet; the table gets the lines of that moment.
// Kept (a): five parameters, since this is the public function that C programs call.
pub fn bostuvrel_run(
    text: &[u8],
    destination: u32,
    choices: &[u32],
    further: u32,
    table: &mut [u32],
) -> u64
    ensures reply { result ≡ run_reply base_limits text.now destination choices.now further (length table.old) }
    ensures table { table.new ≡ final_table base_limits text.now destination choices.now further table.old }
{
    pack::reply(text::run(text, destination, choices, further, table))
}
