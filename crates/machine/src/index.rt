// The index of the directions by who hears over them: a head for each AS, and for each direction the next one of the same AS.
ghost use Rattle.std.specs.Prelude.{◌+◌, ◌*◌, ◌≤◌, ◌≡◌, length};
ghost use Rattle.machine.specs.Index.{Indexing, NoHeads, HasHead, with_direction, IndexLaid};

use super::room::{self, Part};

// The first n ASes hear over no direction yet.
// Kept (a): 2m for none: heads and next directions are words of the room that the public `run` is lent as `&mut [u32]`; what walks along
// them goes on while the word is a direction.
fn lay_heads(room: &mut [u32], links: usize, n: usize)
    requires { (8 * links + n ≤ length room.old) × (links ≤ 1536) }
    ensures { NoHeads links n room.old room.new }
{
    room[8 * links..8 * links + n].fill(2 * links as u32);
}

// Direction k comes in front of those that its hearer hears over.
fn index_direction(room: &mut [u32], links: usize, k: usize)
    requires { HasHead links k room.old }
    ensures { room.new ≡ with_direction links room.old k }
{
    let place = room::hearer_at(room, k);
    let head = room::word_at(room, links, Part::Heads, place);
    room::put_word(room, links, Part::Nexts, k, head);
    room::put_word(room, links, Part::Heads, place, k as u32);
}

// The whole index, from the last direction to the first.
pub fn lay_index(room: &mut [u32], links: usize, n: usize)
    requires { Indexing links n room.old }
    ensures { IndexLaid links n 0 room.old room.new }
{
    lay_heads(room, links, n);
    for k in (0..2 * links).rev() {
        index_direction(room, links, k);
    }
}
