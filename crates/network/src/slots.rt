// The two tables of the check: ASes, and links by the pair that they join. A search begins at a home and goes up to what it looks
// for or to an empty slot, 0; the slots past the homes spare it from wrapping round.
// Kept (d): 0 for an empty slot, since the tables lie on the stack as numbers (`[0u32; 2561]`, `[0u16; 7168]`): an `Option` per slot would
// double them, and no AS and no stored link number is 0.
// Kept (d): table and homes side by side, since `Tables` (steps.rt) has two tables whose homes follow from their lengths (`as_homes`,
// `pair_homes`): as its methods these functions would say all of `Tables` in each clause, where now they say one table.
ghost use Rattle.std.specs.Prelude.{◌≡◌, ◌*◌, ◌<◌, ◌≤◌, ◌==◌, ◌||◌, length, drop, position};
ghost use Rattle.rules.specs.Checks.{is_same_pair};
ghost use Rattle.network.specs.Slots.{spread_of, stops, Homed};
ghost use Rattle.network.specs.Tables.{home_of_as, home_of_pair, is_as, is_pair, Open, Noted, NotedEnds, Places, Pairing, Paired};

use super::link_at;
use rules::Link;

// A home from a number.
fn spread(m: u64, homes: usize) -> usize
    requires { Homed homes }
    ensures { (result ≡ spread_of homes m) × (result < homes) }
{
    (m % 4294967296 * (homes as u64) / 4294967296) as usize
}

// Where the search for an AS begins.
pub fn as_home(x: u32, homes: usize) -> usize
    requires { Homed homes }
    ensures { (result ≡ home_of_as homes x) × (result < homes) }
{
    spread(u64::from(x) * 1640531527, homes)
}

// The whole product of two numbers of 32 bits.
fn product(a: u32, b: u32) -> u64
    ensures { result ≡ a * b }
{
    u64::from(a) * u64::from(b)
}

// Where the search for a link's pair begins, either way round.
fn pair_home(l: Link, homes: usize) -> usize
    requires { Homed homes }
    ensures { (result ≡ home_of_pair homes l) × (result < homes) }
{
    let m = product(l.a, l.b);
    spread((m % 4294967296 + 5 * (m / 4294967296)) * 663608941, homes)
}

// How many of these slots the search for x passes: up to its own, or to an empty one where it belongs. (`|`, so that one branch ends it,
// and none hangs on which of the two it was.)
pub fn find_as(seats: &[u32], x: u32) -> Option<usize>
    ensures { result ≡ position (λ v. v == 0 || v == x) seats.now }
{
    seats.iter().position(|v| (*v == 0) | (*v == x))
}

// Whether two links join the same two ASes, either way round.
// Kept (d): no derived `==` says this, which goes by order and relation too; `&` and `|` since the test, as those of offers/pass.rt, has no
// branch inside.
fn same_pair(l: Link, k: Link) -> bool
    ensures { result ≡ is_same_pair l k }
{
    ((l.a == k.a) & (l.b == k.b)) | ((l.a == k.b) & (l.b == k.a))
}

// How many of these slots the search for the pair of l passes: up to a link that joins it, or to an empty one where it belongs.
fn find_pair(words: &[u32], pairs: &[u16], l: Link) -> Option<usize>
    requires { Places words.now pairs.now }
    ensures { result ≡ position (stops (is_pair words.now l)) pairs.now }
{
    pairs.iter().position(|v| *v == 0 || same_pair(l, link_at(words, usize::from(*v) - 1)))
}

// Puts x in if it is not there. The new number of ASes.
// Kept (d): one function for this and `note_pair` would take what a slot holds, the test and both answers as parameters, for three lines in
// common.
fn note_as(seats: &mut [u32], homes: usize, n: usize, x: u32) -> usize
    requires { (0 < x) × Open homes seats.old n 0 }
    ensures { Noted homes x seats.old n seats.new result }
{
    let h = as_home(x, homes);
    let s = h + find_as(&seats[h..], x).unwrap();
    if seats[s] == 0 {
        seats[s] = x;
        n + 1
    } else {
        n
    }
}

// Puts both ends of a link in. The new number of ASes.
pub fn note_ends(seats: &mut [u32], homes: usize, n: usize, l: Link) -> usize
    requires { (0 < l.a) × (0 < l.b) × Open homes seats.old n 1 }
    ensures { NotedEnds homes l seats.old n seats.new result }
{
    let m = note_as(seats, homes, n, l.a);
    note_as(seats, homes, m, l.b)
}

// Puts link i in if no link before it joins its pair. Whether one does.
// Kept (d): a `bool`, since a table knows no refusals: as `Result<(), Refusal>` it would name the one of the check (steps.rt) to spare it an `if`.
pub fn note_pair(words: &[u32], pairs: &mut [u16], homes: usize, i: usize) -> bool
    requires { Pairing homes words.now i pairs.old }
    ensures { Paired homes words.now i pairs.old pairs.new result }
{
    let l = link_at(words, i);
    let h = pair_home(l, homes);
    let s = h + find_pair(words, &pairs[h..], l).unwrap();
    if pairs[s] == 0 {
        pairs[s] = (i + 1) as u16;
        false
    } else {
        true
    }
}
