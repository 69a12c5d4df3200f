// Link texts: the as-rel form, `a|b|-1` for provider a and customer b, `a|b|0` for peers, a line for each link.
#![tactic(auto, unfolding(crate::specs::Lines::before_bar, crate::specs::Lines::is_decimal_digit, crate::specs::Lines::value_from, crate::specs::Lines::is_in_form, crate::specs::Lines::numeral_of, crate::specs::Lines::relation_of, crate::specs::Lines::read_of_line, crate::specs::Fields::place_of, crate::specs::Texts::lines_of, crate::specs::Texts::text_read_from, crate::specs::Texts::text_in, crate::specs::Entries::read_reply, crate::specs::Entries::final_words, rules::specs::Network::links_of, crate::specs::Texts::relation_text, crate::specs::Texts::line_text, crate::specs::Texts::text_of, crate::specs::Texts::fault_of_relations, crate::specs::Texts::fault_of_text, crate::specs::Entries::write_reply, crate::specs::Entries::final_bytes))]

ghost use Rattle.std.specs.Prelude.{◌≡◌};
ghost use Rattle.linktext.specs.Lines.{reason_at, read_of_fields};

use rules::Link;

pub mod line;
mod quick;
pub mod reading;
pub mod writing;

// Why a line does not read, with the byte in the line, from 1: the first of the faulty field, the further bar, or one past the line's end.
#[derive(Clone, Copy, Debug, PartialEq, Eq)]
pub enum Reason {
    Empty,
    NoNumber(usize),
    TooLarge(usize),
    NoRelation(usize),
    FurtherBar(usize),
}

// What a line gives.
// Kept (a): an enum of its own: three outcomes, which `read_of_line`, under the theorems `read_write` and `write_read`, tells apart;
// customers named it (docs/DECISIONS.md).
#[derive(Clone, Copy, Debug, PartialEq, Eq)]
pub enum LineRead {
    Skip,
    Reads(Link),
    Faulty(Reason),
}

// What a line gives that is no comment and not empty.
impl From<Result<Link, Reason>> for LineRead {
    ghost from_gives = { λ fields read. read ≡ read_of_fields fields };

    fn from(fields: Result<Link, Reason>) -> LineRead {
        match fields {
            Ok(link) => LineRead::Reads(link),
            Err(why) => LineRead::Faulty(why),
        }
    }
}

// Why a field is no number: it is not of a number's form, or above the largest one.
#[derive(Clone, Copy, Debug, PartialEq, Eq)]
pub enum NumeralFault {
    NoForm,
    OverLarge,
}

impl NumeralFault {
    // The reason of a line in which the field that begins at byte `at` has this fault.
    pub(crate) fn reason(self, at: usize) -> Reason
        ensures { result ≡ reason_at at self }
    {
        match self {
            NumeralFault::NoForm => Reason::NoNumber(at),
            NumeralFault::OverLarge => Reason::TooLarge(at),
        }
    }
}
