// Every cut and every single-byte change of the worked sheet, judged: number and place of each refusal, 0 and 0 where it passes. What it
// prints is held to the file stdout, which a program that is no part of this library wrote.
#![tactic(auto)]

use std::io;

// Network A: 10|20|-1, 20|30|-1, 30|40|-1, 10|40|0, 10|50|-1.
const NETWORK_A: [u32; 15] = [10, 20, 1, 20, 30, 1, 30, 40, 1, 10, 40, 0, 10, 50, 1];

// Its sheet's bytes.
const BYTES: usize = 65;

// What the judge says of a sheet.
fn say_judged(rt: &impl Print, sheet: &[u8]) -> io::Result<()> {
    let mut room = [0u32; 80];
    let (number, place) = match judge::judge_sheet(&NETWORK_A, sheet, &mut room) {
        Ok(()) => (0, 0),
        Err(why) => (why.number(), why.place()),
    };
    print!(rt; " {number}.{place}")
}

// The first bytes of the sheet, as many as there may be.
fn say_cuts(rt: &impl Print, sheet: &[u8; BYTES]) -> io::Result<()> {
    for end in 0..=BYTES {
        say_judged(rt, &sheet[..end])?;
    }
    println!(rt; "")
}

// The sheet with every byte at each place.
fn say_changes(rt: &impl Print, sheet: [u8; BYTES]) -> io::Result<()> {
    for at in 0..BYTES {
        let mut changed = sheet;
        for byte in 0..=255 {
            changed[at] = byte;
            say_judged(rt, &changed)?;
        }
        println!(rt; "")?;
    }
    Ok(())
}

fn main(rt: HostRuntime) -> io::Result<()> {
    let mut table = [0u32; 20];
    let mut room = [0u32; 80];
    let mut sheet = [0u8; BYTES];
    if let Err(why) = table::stable_table(&NETWORK_A, 40, &mut table, &mut room) {
        return println!(&rt; "{why}");
    }
    if let Err(why) = sheet::write_sheet(&NETWORK_A, 40, &table, &mut sheet) {
        return println!(&rt; "{why}");
    }
    say_cuts(&rt, &sheet)?;
    say_changes(&rt, sheet)
}
