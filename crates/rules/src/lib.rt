// What routing is told in: pairs of type and length with the extension table, links with their kinds, refusals with number and place.
#![tactic(auto, unfolding(crate::specs::Pairs::extended_type, crate::specs::Pairs::extension, crate::specs::Pairs::beats_of, crate::specs::Pairs::same_as, crate::specs::Pairs::kind_from_a, crate::specs::Pairs::kind_from_b))]

ghost use Rattle.std.specs.Prelude.{◌≡◌, ◌+◌, ◌<◌};
ghost use Rattle.rules.specs.Pairs.{extended_type, extension, beats_of, same_as, kind_from_a, kind_from_b};
ghost use Rattle.rules.specs.Refusals.{refusal_number, refusal_place};

use std::error::Error;
use std::fmt;

// The twelve-cell extension table: link type 1 to 3 down, neighbour's type 1 to 4 across.
// Kept (a): kinds, types and relations are numbers in all of this crate (`extend_type`, `TypeLength`, `Link`), and 4 is 'unreachable': these
// public functions answer for numbers that are no kind, type or relation, and table words and links hold such until they are refused.
pub const EXTENSION: [[u32; 4]; 3] = [[1, 4, 4, 4], [2, 4, 4, 4], [3, 3, 3, 4]];

// The type that a neighbour's type becomes over a link of this kind; 4 for what is no kind or no type.
pub fn extend_type(kind: u32, typ: u32) -> u32
    ensures { result ≡ extended_type kind typ }
{
    match (kind, typ) {
        (1..=3, 1..=4) => EXTENSION[(kind - 1) as usize][(typ - 1) as usize],
        _ => 4,
    }
}

// A type, 1 customer, 2 peer, 3 provider, 4 unreachable, and a length. The order is by type, then by length.
#[derive(Clone, Copy, Debug, PartialEq, Eq, PartialOrd, Ord)]
pub struct TypeLength {
    pub typ: u32,
    pub length: u32,
}

impl TypeLength {
    pub const ORIGIN: TypeLength = TypeLength { typ: 1, length: 0 };

    pub const UNREACHABLE: TypeLength = TypeLength { typ: 4, length: 0 };

    // What a neighbour with this pair offers over a link of this kind and cost.
    pub fn extended(self, kind: u32, cost: u32) -> TypeLength
        requires { self.length + cost < 4294967296 }
        ensures { result ≡ extension kind cost self }
    {
        let typ = extend_type(kind, self.typ);
        if typ == 4 {
            TypeLength::UNREACHABLE
        } else {
            TypeLength {
                typ,
                length: self.length + cost,
            }
        }
    }

    // Smaller type wins, then smaller length.
    // Kept (a): a second name for `<`, public with its clause.
    pub fn beats(self, other: TypeLength) -> bool
        ensures { result ≡ beats_of self other }
    {
        self < other
    }

    // The same type and length.
    // Kept (a): a second name for `==`, public with its clause.
    pub fn same(self, other: TypeLength) -> bool
        ensures { result ≡ same_as self other }
    {
        self == other
    }
}

// A link record: relation 0 for peers, 1 where a is provider of b.
#[repr(C)]
#[derive(Clone, Copy, Debug, PartialEq, Eq)]
pub struct Link {
    pub a: u32,
    pub b: u32,
    pub relation: u32,
}

impl Link {
    // What b is to a.
    // Kept (a): it differs from `kind_from_b` in one number; both are public, each with its clause.
    pub fn kind_from_a(self) -> u32
        ensures { result ≡ kind_from_a self }
    {
        if self.relation == 1 { 1 } else { 2 }
    }

    // What a is to b.
    pub fn kind_from_b(self) -> u32
        ensures { result ≡ kind_from_b self }
    {
        if self.relation == 1 { 3 } else { 2 }
    }
}

// How much is taken: links in a list, ASes in a network, bytes of a text and of a sheet.
#[derive(Clone, Copy, Debug, PartialEq, Eq)]
pub struct Limits {
    pub links: usize,
    pub ases: usize,
    pub text: usize,
    pub sheet: usize,
}

impl Limits {
    // What every entry takes: 1,536 links, 512 ASes, and 65,536 bytes of a text and of a sheet.
    pub const BASE: Limits = Limits {
        links: 1536,
        ases: 512,
        text: 65536,
        sheet: 65536,
    };
}

// Why an input is refused, with the place where it shows.
#[derive(Clone, Copy, Debug, PartialEq, Eq)]
pub enum Refusal {
    OverLimit,
    ZeroAs(usize),
    NoRelation(usize),
    EqualEnds(usize),
    PairAgain(usize),
    TooManyAses(usize),
    NoDestination,
    OutputShort,
    RoomShort,
    Unreadable(usize),
    BrokenForm(usize),
    CannotStand(usize),
    NotBest(usize),
    NoDirection(usize),
}

impl Refusal {
    // The refusal's number, 1 to 13.
    // Kept (a): numbers for refusals, and a place that is 0 where there is none: both functions are public with their clauses,
    // `refusal_number` and `refusal_place`, and programs print what they answer.
    pub fn number(self) -> u32
        ensures { result ≡ refusal_number self }
    {
        match self {
            Refusal::OverLimit => 1,
            Refusal::ZeroAs(_) => 2,
            Refusal::NoRelation(_) => 3,
            Refusal::EqualEnds(_) => 4,
            Refusal::PairAgain(_) => 5,
            Refusal::TooManyAses(_) => 6,
            Refusal::NoDestination => 7,
            Refusal::OutputShort | Refusal::RoomShort => 8,
            Refusal::Unreadable(_) => 9,
            Refusal::BrokenForm(_) => 10,
            Refusal::CannotStand(_) => 11,
            Refusal::NotBest(_) => 12,
            Refusal::NoDirection(_) => 13,
        }
    }

    // Where the refusal shows: a link, line, byte or choice by its index; else 0, and 1 where it is the working room that is short.
    pub fn place(self) -> usize
        ensures { result ≡ refusal_place self }
    {
        match self {
            Refusal::OverLimit | Refusal::NoDestination | Refusal::OutputShort => 0,
            Refusal::RoomShort => 1,
            Refusal::ZeroAs(link)
            | Refusal::NoRelation(link)
            | Refusal::EqualEnds(link)
            | Refusal::PairAgain(link)
            | Refusal::TooManyAses(link) => link,
            Refusal::Unreadable(line) => line,
            Refusal::BrokenForm(byte) => byte,
            Refusal::CannotStand(line) | Refusal::NotBest(line) => line,
            Refusal::NoDirection(choice) => choice,
        }
    }
}

// For people: what is wrong, and where.
impl fmt::Display for Refusal {
    fn fmt<W: fmt::Write>(&self, f: &mut fmt::Formatter<W>) -> fmt::Result {
        match self {
            Refusal::OverLimit => write!(f, "a limit is passed"),
            Refusal::ZeroAs(link) => write!(f, "link {link} names AS 0"),
            Refusal::NoRelation(link) => write!(f, "link {link} has a relation that is not 0 or 1"),
            Refusal::EqualEnds(link) => write!(f, "link {link} joins an AS to itself"),
            Refusal::PairAgain(link) => write!(
                f,
                "link {link} joins a pair that was listed earlier"
            ),
            Refusal::TooManyAses(link) => write!(f, "link {link} brings in one AS too many"),
            Refusal::NoDestination => write!(f, "the destination is not in the network"),
            Refusal::OutputShort => write!(f, "the output is too short"),
            Refusal::RoomShort => write!(f, "the working room is too short"),
            Refusal::Unreadable(line) => write!(f, "line {line} of the text does not read"),
            Refusal::BrokenForm(byte) => write!(f, "byte {byte} breaks the sheet's form"),
            Refusal::CannotStand(line) => write!(f, "line {line} of the table cannot stand"),
            Refusal::NotBest(line) => write!(f, "line {line} is not the best offer"),
            Refusal::NoDirection(choice) => write!(f, "choice {choice} is no direction"),
        }
    }
}

impl Error for Refusal {}
