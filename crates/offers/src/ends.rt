// Where the ends of the links stand among the ascending ASes.
ghost use Rattle.std.specs.Prelude.{◌+◌, ◌*◌, ◌≤◌, ◌<◌, ◌≡◌, length, get_or, IfSome};
ghost use Rattle.rules.specs.Lists.{In};
ghost use Rattle.rules.specs.Network.{links_of, link_in_words, ases_of};
ghost use Rattle.offers.specs.Ways.{index_in};
ghost use Rattle.offers.specs.Placing.{kind_of_direction, put_ends};

use rules::Link;

// The kind of direction k, which is the link's, seen from its hearer.
// Kept (a): a number, as `kind_from_a` and `kind_from_b` of the crate rules, public, answer it.
pub fn kind_over(link: Link, k: usize) -> u32
    ensures { result ≡ kind_of_direction link k }
{
    if k % 2 == 0 {
        link.kind_from_b()
    } else {
        link.kind_from_a()
    }
}

// Word k of the places.
pub fn place_at(places: &[u32], k: usize) -> usize
    requires { k < length places.now }
    ensures { result ≡ get_or places.now k 0 }
{
    places[k] as usize
}

// Puts the place of each AS, one higher, into a slot that is free, 0, from its own slot on. Nothing is said of the hints: one may be
// missing or wrong.
// Kept (d): 0 for no hint, since hints lie on the stack as numbers (`[0u32; 2048]`): an `Option` per slot would double them.
pub fn put_hints(ases: &[u32], hints: &mut [u32; 2048])
    requires { length ases.now < 4294967296 }
{
    for (i, x) in ases.iter().enumerate() {
        let home = network::slot_of(*x);
        if let Some(s) = hints[home..].iter().position(|mark| *mark == 0) {
            hints[home + s] = (i + 1) as u32;
        }
    }
}

// The links of a network and its ASes, ascending, with hints where each AS stands.
// Kept (a): words and ASes side by side, with the fact `listed`, since `place_ends`, public, is given them so.
#[derive(Clone, Copy, Debug, PartialEq, Eq)]
pub struct Roster<'a> {
    pub words: &'a [u32],
    pub ases: &'a [u32],
    pub hints: &'a [u32; 2048],
    ghost listed: { ases.now ≡ ases_of (links_of words.now) },
    ghost few: { length ases.now < 4294967296 },
}

impl Roster<'_> {
    // Where the hints say that x stands, if they do and are right.
    fn hinted(&self, x: u32) -> Option<usize>
        ensures { IfSome result (λ i. (i < length self.now.ases.now) × (get_or self.now.ases.now i 0 ≡ x)) }
    {
        self.hints[network::slot_of(x)..]
            .iter()
            .take_while(|mark| **mark != 0)
            .map(|mark| (*mark - 1) as usize)
            .find(|place| self.ases.get(*place) == Some(&x))
    }

    // Where one of the ASes stands.
    #[tactic(auto, using(crate::proofs::EndLaws::searchable, crate::proofs::EndLaws::only_place, crate::proofs::EndLaws::found, crate::proofs::EndLaws::found_place))]
    fn place_of(&self, x: u32) -> u32
        requires { In x self.now.ases.now }
        ensures { result ≡ index_in self.now.ases.now x }
    {
        match self.hinted(x) {
            Some(place) => place as u32,
            None => network::place_of(self.ases, self.ases.len(), x).unwrap() as u32,
        }
    }

    // The two ends of link i.
    #[tactic(auto, using(network::proofs::PrefixLaws::count, crate::proofs::EndLaws::ends_In))]
    pub fn place_link(&self, i: usize, places: &mut [u32])
        requires { (i < length (links_of self.now.words.now)) × (2 * i + 2 ≤ length places.old) }
        ensures { places.new ≡ put_ends self.now.ases.now places.old i (link_in_words self.now.words.now i) }
    {
        let link = network::link_at(self.words, i);
        places[2 * i] = self.place_of(link.a);
        places[2 * i + 1] = self.place_of(link.b);
    }
}
