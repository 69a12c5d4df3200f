// The entries over a lent list of link records: the reply and all lent memory are those of the entry over words on the list as words.
// The list is loaded once, by a loop that hands each link by value to `network::put_link`.
#![tactic(auto, unfolding(rules::specs::Network::flat, rules::specs::Checks::check_words))]

ghost use Rattle.std.specs.Prelude.{◌≡◌, ◌++◌, ◌+◌, ◌*◌, ◌≤◌, length, drop};
ghost use Rattle.rules.specs.Network.{flat};
ghost use Rattle.rules.specs.Checks.{base_limits, check_words};
ghost use Rattle.table.specs.Entries.{Tabled};
ghost use Rattle.judge.specs.Judging.{Judged};
ghost use Rattle.machine.specs.Answers.{Answered};
ghost use Rattle.records.specs.Entries.{loaded, TextWritten, FoundIn, SheetWritten};

use findings::Found;
use machine::Ran;
use network::WORDS_PER_LINK;
use rules::{Limits, Link, Refusal};

pub mod arrays;
pub mod loaded;

// At most so many links.
pub const MOST_LINKS: usize = Limits::BASE.links;

// The list as words, by value: how many links there are, and their words where they are few.
// Kept (a): a count beside the words: `load` gives both, and callers of `loaded` hand both back (`Words`, public).
#[derive(Clone, Copy, Debug, PartialEq, Eq)]
pub struct Words {
    pub count: usize,
    pub words: [u32; WORDS_PER_LINK * MOST_LINKS],
}

impl Words {
    ghost use Rattle.std.specs.Prelude.{MatchResult};
    ghost use Rattle.records.specs.Entries.{HoldsFew, HoldsMany};

    // The links' words; or refusal 1 where there are too many.
    pub fn link_words(&self) -> Result<&[u32], Refusal>
        ensures { MatchResult result (λ ws. HoldsFew self.now ws.now) (λ why. HoldsMany self.now why) }
    {
        if self.count > MOST_LINKS {
            return Err(Refusal::OverLimit);
        }
        Ok(&self.words[..WORDS_PER_LINK * self.count])
    }
}

// The links' words in the first of the lent words: each link is handed by value to `network::put_link`.
fn to_words(links: &[Link], words: &mut [u32])
    requires { 3 * length links.now ≤ length words.old }
    ensures { words.new ≡ flat links.now ++ drop (3 * length links.now) words.old }
{
    for (i, link) in links.iter().enumerate() {
        network::put_link(words, i, *link);
    }
}

// The links by value: the words of too many are not kept.
pub fn load(links: &[Link]) -> Words
    ensures { result ≡ loaded links.now }
{
    let mut loaded = Words {
        count: links.len(),
        words: [0; WORDS_PER_LINK * MOST_LINKS],
    };
    if loaded.count <= MOST_LINKS {
        to_words(links, &mut loaded.words);
    }
    loaded
}

// The number of the links' ASes, or the first refusal of 1 to 6.
pub fn check_links(links: &[Link]) -> Result<usize, Refusal>
    ensures { result ≡ check_words base_limits (flat links.now) }
{
    loaded::check_links(load(links))
}

// The links' text into lent bytes: the number of bytes, or refusals 1, 3, 8.
pub fn write_text(links: &[Link], bytes: &mut [u8]) -> Result<usize, Refusal>
    ensures { TextWritten (flat links.now) bytes.old result bytes.new }
{
    loaded::write_text(load(links), bytes)
}

// Whether there is a customer ring, and whether the network is joined; or refusals 1, 2 to 6, 8.
pub fn find(links: &[Link], room: &mut [u32]) -> Result<Found, Refusal>
    ensures { FoundIn (flat links.now) room.old result room.new }
{
    loaded::find(load(links), room)
}

// The stable table to the destination, four words per AS; or refusals 1, 2 to 6, 7, 8.
// Kept (a): four parameters, here and in `write_sheet`, and so in `loaded`, since these functions are public.
pub fn stable_table(
    links: &[Link],
    destination: u32,
    table: &mut [u32],
    room: &mut [u32],
) -> Result<(), Refusal>
    ensures { Tabled base_limits (flat links.now) destination table.old room.old result table.new room.new }
{
    loaded::stable_table(load(links), destination, table, room)
}

// A table's sheet into lent bytes: the number of bytes, or refusals 1, 2 to 6, 7, 11, 8.
pub fn write_sheet(
    links: &[Link],
    destination: u32,
    table: &[u32],
    bytes: &mut [u8],
) -> Result<usize, Refusal>
    ensures { SheetWritten (flat links.now) destination table.now bytes.old result bytes.new }
{
    loaded::write_sheet(load(links), destination, table, bytes)
}

// The judge of a sheet: it passes, or refusals 1, 2 to 6, 8 (room), 10, 7, 11, 12.
pub fn judge_sheet(links: &[Link], sheet: &[u8], room: &mut [u32]) -> Result<(), Refusal>
    ensures { Judged base_limits 511 (flat links.now) sheet.now room.old result room.new }
{
    loaded::judge_sheet(load(links), sheet, room)
}

// A run of the machine: deliveries, idle choices, quiet or not; or refusals 1, 2 to 6, 7, 8, 13.
// Kept (a): six parameters, here and in `loaded`, since both functions are public.
pub fn run(
    links: &[Link],
    destination: u32,
    choices: &[u32],
    further: u32,
    table: &mut [u32],
    room: &mut [u32],
) -> Result<Ran, Refusal>
    ensures { Answered base_limits (flat links.now) destination choices.now further table.old room.old result table.new room.new }
{
    loaded::run(load(links), destination, choices, further, table, room)
}
