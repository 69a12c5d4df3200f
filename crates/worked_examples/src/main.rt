// The worked examples, of five ASes and of smaller networks, run on the code, the first by link records too. Each line that is printed begins
// with its example's label; what is printed is held to the file stdout.
// Kept (d): four functions print a word, match a reply and end the line: the replies are of four types, so with a closure for the middle each
// would have its match in the closure and be no shorter.
#![tactic(auto)]

use findings::Found;
use machine::Ran;
use rules::{Link, Refusal};
use std::io;

// Network A: 10|20|-1, 20|30|-1, 30|40|-1, 10|40|0, 10|50|-1.
const NETWORK_A: [u32; 15] = [10, 20, 1, 20, 30, 1, 30, 40, 1, 10, 40, 0, 10, 50, 1];

// 1|2|0, 2|3|0.
const TWO_PEERINGS: [u32; 6] = [1, 2, 0, 2, 3, 0];

// 1|2|-1, 2|3|-1, 3|1|-1.
const RING_OF_THREE: [u32; 9] = [1, 2, 1, 2, 3, 1, 3, 1, 1];

fn yes_or_no(yes: bool) -> &'static str {
    if yes { "yes" } else { "no" }
}

// A refusal: number and place.
fn say_refused(rt: &impl Print, why: Refusal) -> io::Result<()> {
    print!(rt; " refused {} {}", why.number(), why.place())
}

// The entries of a table whose numbers are not 0.
fn say_lines(rt: &impl Print, table: &[u32]) -> io::Result<()> {
    for [number, typ, length, next] in table.as_chunks::<4>().0 {
        if *number != 0 {
            print!(rt; "  {number} {typ} {length} {next}")?;
        }
    }
    Ok(())
}

// The stable table of the links to a destination.
fn say_table(rt: &impl Print, word: &str, links: &[u32], destination: u32) -> io::Result<()> {
    let mut table = [0u32; 20];
    let mut room = [0u32; 128];
    print!(rt; "{word}")?;
    match table::stable_table(links, destination, &mut table, &mut room) {
        Ok(()) => say_lines(rt, &table)?,
        Err(why) => say_refused(rt, why)?,
    }
    println!(rt; "")
}

// The two findings on the links.
fn say_findings(rt: &impl Print, word: &str, links: &[u32]) -> io::Result<()> {
    let mut room = [0u32; 128];
    print!(rt; "{word}")?;
    match findings::find(links, &mut room) {
        Ok(Found { ring, joined }) => {
            print!(rt; " ring {} joined {}", yes_or_no(ring), yes_or_no(joined))?
        }
        Err(why) => say_refused(rt, why)?,
    }
    println!(rt; "")
}

// What the judge says of a sheet for network A.
fn say_judged(rt: &impl Print, word: &str, sheet: &[u8]) -> io::Result<()> {
    let mut room = [0u32; 80];
    print!(rt; "{word}")?;
    match judge::judge_sheet(&NETWORK_A, sheet, &mut room) {
        Ok(()) => print!(rt; " passes")?,
        Err(why) => say_refused(rt, why)?,
    }
    println!(rt; "")
}

// The sheet of network A to 40, and the same with another length in 50's line.
fn say_sheets(rt: &impl Print) -> io::Result<()> {
    let mut table = [0u32; 20];
    let mut room = [0u32; 80];
    let mut sheet = [0u8; 65];
    if let Err(why) = table::stable_table(&NETWORK_A, 40, &mut table, &mut room) {
        return say_refused(rt, why);
    }
    if let Err(why) = sheet::write_sheet(&NETWORK_A, 40, &table, &mut sheet) {
        return say_refused(rt, why);
    }
    say_judged(rt, "P1 sheet", &sheet)?;
    sheet[60] = 2;
    say_judged(rt, "P10", &sheet)
}

// A run of the machine on network A to 40: the table of its end, deliveries made, idle choices, quiet or not.
fn say_run(rt: &impl Print, word: &str, choices: &[u32], further: u32) -> io::Result<()> {
    let mut table = [0u32; 20];
    let mut room = [0u32; 80];
    print!(rt; "{word}")?;
    match machine::run(&NETWORK_A, 40, choices, further, &mut table, &mut room) {
        Ok(Ran { made, idle, quiet }) => {
            say_lines(rt, &table)?;
            print!(rt; "  made {made} idle {idle} quiet {}", yes_or_no(quiet))?;
        }
        Err(why) => say_refused(rt, why)?,
    }
    println!(rt; "")
}

// Kept (a): a relation is a number, here and in `records_a`, as in `rules::Link`: the last example gives 2, which is none.
fn link(a: u32, b: u32, relation: u32) -> Link {
    Link { a, b, relation }
}

// Network A as records, the first five of sixteen; the relation of 10 and 50 is given.
fn records_a(relation: u32) -> [Link; 16] {
    let mut links = [link(10, 20, 1); 16];
    links[1] = link(20, 30, 1);
    links[2] = link(30, 40, 1);
    links[3] = link(10, 40, 0);
    links[4] = link(10, 50, relation);
    links
}

// The check of the first five records: the number of their ASes; and their stable table to 40.
fn say_records(rt: &impl Print, word: &str, links: [Link; 16]) -> io::Result<()> {
    let mut table = [0u32; 20];
    let mut room = [0u32; 80];
    print!(rt; "{word}")?;
    match records::arrays::check_links(links, 5) {
        Ok(n) => print!(rt; " ases {n}")?,
        Err(why) => say_refused(rt, why)?,
    }
    println!(rt; "")?;
    print!(rt; "{word}")?;
    let words = records::arrays::load(links, 5);
    match records::loaded::stable_table(words, 40, &mut table, &mut room) {
        Ok(()) => say_lines(rt, &table)?,
        Err(why) => say_refused(rt, why)?,
    }
    println!(rt; "")
}

fn main(rt: HostRuntime) -> io::Result<()> {
    say_table(&rt, "P1", &NETWORK_A, 40)?;
    say_table(&rt, "P2", &NETWORK_A, 50)?;
    say_table(&rt, "P3", &TWO_PEERINGS, 3)?;
    say_findings(&rt, "P3", &TWO_PEERINGS)?;
    let up_and_down = rules::extend_type(1, 3);
    let over_two_peers = rules::extend_type(2, 2);
    let down_and_over = rules::extend_type(3, 2);
    println!(&rt; "P4 {up_and_down} {over_two_peers} {down_and_over}")?;
    // no choices; the choices 7 and 8, to the end and alone; the choices 7, 8 and 7 alone
    say_run(&rt, "P5", &[], 65536)?;
    say_run(&rt, "P6", &[7, 8], 65536)?;
    say_run(&rt, "P6", &[7, 8], 0)?;
    say_run(&rt, "P7", &[7, 8, 7], 0)?;
    say_findings(&rt, "P8", &NETWORK_A)?;
    say_findings(&rt, "P9", &RING_OF_THREE)?;
    say_sheets(&rt)?;
    // by records, and with a relation that is none, which no text can have
    say_records(&rt, "P1 records", records_a(1))?;
    say_records(&rt, "relation 2", records_a(2))
}
