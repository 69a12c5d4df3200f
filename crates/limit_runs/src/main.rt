// Runs the limits on the files of data/: for each link text what reading it gives, what the check of its links says, and what the findings
// say in a room that suffices and in one that is a word short; for each input of the program what it prints.
#![tactic(auto)]

ghost use Rattle.std.specs.Prelude.{◌≤◌, IfOk};

use network::WORDS_PER_LINK;
use report::{REPORT_BYTES, ROOM_WORDS};
use rules::{Limits, Refusal};
use std::fs::File;
use std::io;
use std::io::{Read, Write};

// One byte more than an input may have.
const INPUT_BYTES: usize = 65537;

// The link texts.
const TEXTS: [&str; 10] = [
    "empty",
    "one_lf",
    "largest_as",
    "as_too_large",
    "links_1536",
    "links_1537",
    "ases_512",
    "ases_513",
    "bytes_65536",
    "bytes_65537",
];

// The inputs of the program.
const INPUTS: [&str; 6] = [
    "program_65536_bytes",
    "program_65537_bytes",
    "program_ring",
    "program_quiet_65536",
    "program_stopped_65536",
    "program_chain_512",
];

// Number and place of a refusal.
// Kept (d): `worked_examples` says it in other words; the text of a `print!` is no parameter, and the two programs share no crate that
// prints.
fn say_refused(rt: &impl Print, why: Refusal) -> io::Result<()> {
    print!(rt; " refused {} place {}", why.number(), why.place())
}

// What the findings say in so many words of room: accepted, or the refusal.
fn say_room(rt: &impl Print, words: &[u32], need: usize) -> io::Result<()> {
    let mut room = [0u32; 16384];
    if room.len() < need {
        return Ok(());
    }
    match findings::find(words, &mut room[..need]) {
        Ok(_) => print!(rt; " room {need}"),
        Err(why) => say_refused(rt, why),
    }
}

// The findings in a room that suffices, and in one that is a word short.
fn say_rooms(rt: &impl Print, words: &[u32], ases: usize) -> io::Result<()> {
    if ases == 0 || Limits::BASE.ases < ases {
        return Ok(());
    }
    // Kept (d): `network::room_need` asks for fewer than 2^32 links, which would be one more test here.
    let need = 8 * (words.len() / WORDS_PER_LINK) + 8 * ases;
    say_room(rt, words, need)?;
    say_room(rt, words, need - 1)
}

// The check of the links, and their rooms.
fn say_links(rt: &impl Print, words: &[u32]) -> io::Result<()> {
    match network::check_links(words) {
        Ok(ases) => {
            print!(rt; " ases {ases}")?;
            say_rooms(rt, words, ases)
        }
        Err(why) => say_refused(rt, why),
    }
}

// The text's links, and the check of them.
fn say_text(rt: &impl Print, text: &[u8]) -> io::Result<()> {
    let mut words = [0u32; WORDS_PER_LINK * Limits::BASE.links];
    match linktext::reading::read_text(text, &mut words) {
        Ok(links) => {
            print!(rt; " links {links}")?;
            let end = words
                .len()
                .min(WORDS_PER_LINK * links.min(Limits::BASE.links));
            say_links(rt, &words[..end])
        }
        Err(why) => say_refused(rt, why),
    }
}

// The first bytes of a file: how many there are.
// Kept (d): the program `route_sheet` reads standard input by the same call: two programs share no crate that may read.
// Kept (d): an array and how much of it was read, not a `Vec`, as in `route_sheet`, where the reason stands.
fn read_file(rt: &HostRuntime, path: &str, bytes: &mut [u8; INPUT_BYTES]) -> io::Result<usize>
    ensures { IfOk result (λ n. n ≤ 65537) }
{
    let read = io::copy(
        &mut File::open(rt, path)?.take(INPUT_BYTES as u64),
        &mut &mut bytes[..],
    )?;
    Ok(INPUT_BYTES.min(read as usize))
}

// One link text: its name, then what is said of it.
fn on(rt: &HostRuntime, path: &str) -> io::Result<()> {
    let mut text = [0u8; INPUT_BYTES];
    let n = read_file(rt, path, &mut text)?;
    print!(rt; "{path}")?;
    say_text(rt, &text[..n])?;
    println!(rt; "")
}

// One input of the program: its name, then what the program prints.
fn program_on(rt: &HostRuntime, path: &str) -> io::Result<()> {
    let mut input = [0u8; INPUT_BYTES];
    let n = read_file(rt, path, &mut input)?;
    println!(rt; "{path}")?;
    print_report(rt, &input[..n])
}

fn print_report(rt: &HostRuntime, input: &[u8]) -> io::Result<()> {
    let mut room = [0u32; ROOM_WORDS];
    let mut out = [0u8; REPORT_BYTES];
    let end = report::report(input, &mut room, &mut out);
    rt.stdout().write_all(&out[..end])
}

fn main(rt: HostRuntime) -> io::Result<()> {
    for path in TEXTS {
        on(&rt, path)?;
    }
    // refusal 3: a text gives the relations 0 and 1 only, so it takes link words
    print!(&rt; "relation_2")?;
    say_links(&rt, &[1, 2, 2])?;
    println!(&rt; "")?;
    for path in INPUTS {
        program_on(&rt, path)?;
    }
    Ok(())
}
