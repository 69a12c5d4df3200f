// Replies as one number: the refusal number in the top byte, 0 for accepted; then the value, or the place from bit 28 on.
ghost use Rattle.std.specs.Prelude.{◌≡◌, ◌+◌, ◌*◌, ◌≤◌};
ghost use Rattle.std.specs.Result.{ForErr};
ghost use Rattle.storefront.specs.Page.{findings_value, quiet_bit};
ghost use Rattle.storefront.specs.Steps.{Placed, packed_reply};

use findings::Found;
use machine::Ran;
use rules::Refusal;

// What one of a refusal's number counts, and one of its place.
const NUMBER: u64 = 1 << 56;

const PLACE: u64 = 1 << 28;

// What one idle choice counts, and a quiet run.
const IDLE: u64 = 1 << 20;

const QUIET: u64 = 1 << 40;

// The value, or the refusal.
// Kept (a): a refusal as its number and place in one word, since that is what C programs get; no `From`, as both types are of other crates.
pub fn reply(reply: Result<u64, Refusal>) -> u64
    requires { ForErr reply Placed }
    ensures { result ≡ packed_reply reply }
{
    match reply {
        Ok(value) => value,
        Err(why) => NUMBER * u64::from(why.number()) + PLACE * (why.place() as u64),
    }
}

// The two findings: 1 if a ring, plus 2 if joined.
// Kept (d): this and `counted` are no `From`: both types are of other crates, so a trait of our own would have to come in between.
pub fn found(found: Found) -> u64
    ensures { result ≡ findings_value found.ring found.joined }
{
    u64::from(found.ring) + 2 * u64::from(found.joined)
}

// A run: deliveries made, idle choices, quiet or not.
pub fn counted(ran: Ran) -> u64
    requires { (ran.made ≤ 131072) × (ran.idle ≤ 65536) }
    ensures { result ≡ ran.made + 1048576 * ran.idle + quiet_bit ran.quiet }
{
    ran.made as u64 + IDLE * (ran.idle as u64) + QUIET * u64::from(ran.quiet)
}
