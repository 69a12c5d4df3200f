// The start before anything is told: lines, places, held pairs and index.
ghost use Rattle.std.specs.Prelude.{◌*◌, ◌≤◌, ◌≡◌, length};
ghost use Rattle.network.specs.Promises.{count_of};
ghost use Rattle.machine.specs.Start.{Blank, Readying, Ready, Starting, LaidOut};

use super::look::Order;
use super::{index, room};
use rules::TypeLength;

// All held pairs are unreachable, and nothing waits.
fn lay_pairs(room: &mut [u32], links: usize)
    requires { 6 * links ≤ length room.old }
    ensures { Blank links (2 * links) room.old room.new }
{
    room[2 * links..4 * links].fill(room::pack_pair(TypeLength::UNREACHABLE));
    room[4 * links..6 * links].fill(room::NOTHING);
}

// The room of an order: places, blank directions, index.
fn lay_room(order: Order<'_>, room: &mut [u32])
    requires { Readying order.net.words.now (count_of order.net.words.now) order.ases.now (length order.ases.now) room.old }
    ensures { Ready order.entry.net.words.now (count_of order.entry.net.words.now) room.new }
{
    let n = order.ases.len();
    offers::place_ends(order.net.words, order.ases, n, room);
    let links = order.net.links();
    lay_pairs(room, links);
    index::lay_index(room, links, n);
}

// Table and room of an order.
pub fn lay_out(order: Order<'_>, table: &mut [u32], room: &mut [u32])
    requires { Starting order.net.words.now (count_of order.net.words.now) order.ases.now order.destination table.old room.old }
    ensures { LaidOut order.entry.net.words.now (count_of order.entry.net.words.now) order.entry.destination table.old table.new room.new }
{
    let number = order.ases[order.destination];
    offers::lay_fresh_lines(table, order.ases, order.ases.len(), number);
    lay_room(order, room);
}
