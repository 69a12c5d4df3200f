// A list of link words that the check accepted.
ghost use Rattle.std.specs.Prelude.{◌≡◌, ◌*◌, length, Ok, Err, MatchResult};
ghost use Rattle.rules.specs.Checks.{base_limits, check_words};
ghost use Rattle.network.specs.Promises.{count_of};

use super::{WORDS_PER_LINK, check_links};
use rules::Refusal;

/// A lent list of link words that passed the check of `check_links`: no other is made. `ases` counts the ASes that its links name.
#[derive(Clone, Copy, Debug, PartialEq, Eq)]
pub struct Network<'a> {
    pub words: &'a [u32],
    pub ases: usize,
    ghost accepted: { check_words base_limits words.now ≡ Ok ases },
}

impl<'a> Network<'a> {
    /// The check of a list of link words: refusals 1 to 6, or the network that the words are.
    pub fn check(words: &'a [u32]) -> Result<Network<'a>, Refusal>
        ensures { MatchResult result (λ net. net.words.now ≡ words.now) (λ e. check_words base_limits words.now ≡ Err e) }
    {
        let ases = check_links(words)?;
        Ok(Network { words, ases })
    }

    /// How many links there are.
    pub fn links(self) -> usize
        ensures { result ≡ count_of self.entry.words.now }
    {
        self.words.len() / WORDS_PER_LINK
    }
}
