// The program: standard input's destination and link text in, the report or the refusal out. What is written is `report_of` of what was
// read; one byte more than the limit is read, so that an input that is too long is seen.
#![tactic(auto)]

use report::REPORT_BYTES;
use std::io;
use std::io::{Read, Write};

// One byte more than an input may have.
const INPUT_BYTES: usize = 65537;

fn main(rt: HostRuntime) -> io::Result<()> {
    // Kept (d): an array and how much of it was read, not a `Vec`, which brings an error of memory that nothing here needs.
    let mut input = [0u8; INPUT_BYTES];
    // Kept (a): the room by its number, a form that customers named (docs/DECISIONS.md, 'Forms that customers named'); it is
    // `report::ROOM_WORDS`.
    let mut room = [0u32; 16384];
    let mut out = [0u8; REPORT_BYTES];
    let read = io::copy(
        &mut rt.stdin().take(INPUT_BYTES as u64),
        &mut &mut input[..],
    )?;
    let n = input.len().min(read as usize);
    let end = report::report(&input[..n], &mut room, &mut out);
    rt.stdout().write_all(&out[..end])
}
