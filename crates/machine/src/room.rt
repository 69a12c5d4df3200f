// The machine's words in the lent room, part after part.
ghost use Rattle.std.specs.Prelude.{◌+◌, ◌*◌, ◌/◌, ◌≤◌, ◌<◌, ◌≡◌, length, get_or, set};
ghost use Rattle.machine.specs.Room.{pair_word, pair_of, hearer_word};
ghost use Rattle.machine.specs.Parts.{start_of};

use offers::partner;
use rules::TypeLength;

// The parts, each with the words per link that lie before it. All have a word for each direction but the heads, which have one for each AS.
#[derive(Clone, Copy, Debug, PartialEq, Eq)]
pub enum Part {
    Places = 0,
    Held = 2,
    Waiting = 4,
    Nexts = 6,
    Heads = 8,
}

// Word k of a part of the room of so many links.
// Kept (d): the room and its number of links, here and in index.rt and start.rt. `Machine` is the struct that has both, once the room is
// laid; one for the laying would hold no fact of them, since each step there changes what the room has.
pub fn word_at(room: &[u32], links: usize, part: Part, k: usize) -> u32
    requires { start_of part links + k < length room.now }
    ensures { result ≡ get_or room.now (start_of part links + k) 0 }
{
    room[part as usize * links + k]
}

// Word k of a part becomes another.
pub fn put_word(room: &mut [u32], links: usize, part: Part, k: usize, word: u32)
    requires { start_of part links + k < length room.old }
    ensures { room.new ≡ set room.old (start_of part links + k) word }
{
    room[part as usize * links + k] = word;
}

// Where who hears over direction k stands.
pub fn hearer_at(room: &[u32], k: usize) -> usize
    requires { 2 * (k / 2) + 2 ≤ length room.now }
    ensures { result ≡ hearer_word room.now k }
{
    room[partner(k)] as usize
}

// A pair is one word, its type in units and its length below.
const UNIT: u32 = 268435456;

// Nothing waits.
// Kept (a): the public `run` is lent its room as `&mut [u32]`, so that 'nothing waits' is a word too, 0, which no pair of type 1 to 4 is;
// `Machine::waits` alone reads it.
pub const NOTHING: u32 = 0;

// Kept (d): no `From`: the pair is another crate's type, and only one whose word fits has a word.
pub fn pack_pair(pair: TypeLength) -> u32
    requires { pair_word pair < 4294967296 }
    ensures { result ≡ pair_word pair }
{
    UNIT * pair.typ + pair.length
}

pub fn unpack_pair(word: u32) -> TypeLength
    ensures { result ≡ pair_of word }
{
    TypeLength {
        typ: word / UNIT,
        length: word % UNIT,
    }
}
