// The machine's state in lent memory: lines in a table, pairs and the index of the directions in a room, and a flag for each block of 48
// directions. A block without a flag has nothing that waits, and is passed over.
ghost use Rattle.std.specs.Prelude.{◌<◌};
ghost use Rattle.machine.specs.Room.{ases_in, Flagged, Laid};

use super::room::{self, Part};
use offers::partner;

pub const BLOCKS: usize = 64;

const DIRECTIONS_PER_BLOCK: usize = 48;

// A network of so many links, the place of the destination among its ascending ASes, and the memory that is laid out for it.
#[derive(Drop)]
pub struct Machine<'a> {
    pub words: &'a [u32],
    pub links: usize,
    pub destination: usize,
    pub table: &'a mut [u32],
    pub room: &'a mut [u32],
    pub flags: [bool; BLOCKS],
    ghost inside: { destination < ases_in words.now },
    ghost laid: { Laid words.now links table.now room.now },
    ghost flagged: { Flagged links room.now flags },
}

// Kept (d): `k < 2 * links` and `place < ases_in words` as clauses of the methods, here and in steps.rt and runs.rt. A type for a direction
// or a place would have to carry the links or words too, and each call to show that they are this machine's.
impl<'a> Machine<'a> {
    ghost use Rattle.std.specs.Prelude.{◌+◌, ◌*◌, ◌/◌, ◌≤◌, ◌<◌, ◌≡◌, ◌≢◌, MatchBool, length, get_or};
    ghost use Rattle.machine.specs.Parts.{start_of};
    ghost use Rattle.machine.specs.Room.{ases_in, waiting_word};
    ghost use Rattle.machine.specs.Steps.{FirstBetween, Sent};
    ghost use Rattle.machine.specs.States.{Stays, Puts};

    // Word k of a part of the room.
    pub fn word(&self, part: Part, k: usize) -> u32
        requires { start_of part self.now.links + k < length self.now.room.now }
        ensures { result ≡ get_or self.now.room.now (start_of part self.now.links + k) 0 }
    {
        room::word_at(self.room, self.links, part, k)
    }

    // Whether something waits on direction k.
    pub fn waits(&self, k: usize) -> bool
        requires { k < 2 * self.now.links }
        ensures { MatchBool result (waiting_word self.now.links self.now.room.now k ≢ 0) (waiting_word self.now.links self.now.room.now k ≡ 0) }
    {
        self.word(Part::Waiting, k) != room::NOTHING
    }

    // The first direction of a block on which something waits.
    fn first_in(&self, block: usize) -> Option<usize>
        requires { block < 64 }
        ensures { FirstBetween self.now.links self.now.room.now (48 * block) (48 * block + 48) result }
    {
        let end = (DIRECTIONS_PER_BLOCK * block + DIRECTIONS_PER_BLOCK).min(2 * self.links);
        (DIRECTIONS_PER_BLOCK * block..end).find(|k| self.waits(*k))
    }

    // The first direction on which something waits. A block that is found to have none loses its flag.
    #[tactic(auto, using(crate::proofs::BlockLaws::blocks))]
    pub fn first_waiting(&mut self) -> Option<usize>
        ensures stays { Stays self.old self.new }
        ensures table { self.new.table.now ≡ self.old.table.now }
        ensures room { self.new.room.now ≡ self.old.room.now }
        ensures first { FirstBetween self.old.links self.old.room.now 0 (2 * self.old.links) result }
    {
        for block in 0..BLOCKS {
            if self.flags[block] {
                if let Some(k) = self.first_in(block) {
                    return Some(k);
                }
                self.flags[block] = false;
            }
        }
        None
    }

    // A word waits on direction k, and its block gets its flag.
    fn put_waiting(&mut self, k: usize, word: u32)
        requires { k < 2 * self.old.links }
        ensures stays { Stays self.old self.new }
        ensures puts { Puts self.old k word self.new }
    {
        self.flags[k / DIRECTIONS_PER_BLOCK] = true;
        room::put_word(self.room, self.links, Part::Waiting, k, word);
    }

    // A word goes on every direction over which the AS at a place tells, and replaces one that waits: the partners of those that it hears.
    pub fn send(&mut self, place: usize, word: u32)
        requires { place < ases_in self.old.words.now }
        ensures stays { Stays self.old self.new }
        ensures table { self.new.table.now ≡ self.old.table.now }
        ensures sent { Sent self.old.links place word (2 * self.old.links) self.old.room.now self.new.room.now }
    {
        let mut k = self.word(Part::Heads, place) as usize;
        // Kept (d): a walk along words of the room, which 2m ends. It stores into the room as it goes, so that no iterator may hold it.
        while k < 2 * self.links {
            self.put_waiting(partner(k), word);
            k = self.word(Part::Nexts, k) as usize;
        }
    }
}
