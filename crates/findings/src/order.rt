//! An order in which ASes can be taken away, customers before providers, guessed quickly: whoever has no customer left goes. Nothing is
//! proved of it: rightness rests on the look at the ranks (ranks.rt) and on the passes (ring.rt), and speed on this guess.
ghost use Rattle.std.specs.Prelude.{◌≤◌, ◌<◌};

use crate::survey::{PROVIDES, Survey, Way};
use offers::scratch::{self, ASES};

// Where the heads of the index (offers::scratch) of provider links begin: one for each customer.
const CUSTOMERS: usize = scratch::LINKS;

// How many words the index has.
const INDEX: usize = CUSTOMERS + ASES;

// Places of ASes that wait, the latest on top. Half words, as counts below: the stack is small.
// Kept (a): an array with its height, not a `Vec`: there is no heap.
#[derive(Drop)]
struct Stack {
    places: [u16; ASES],
    height: usize,
    ghost fits: { height ≤ 512 },
}

impl Stack {
    // On top, if there is room.
    fn push(&mut self, place: usize)
        requires { place < 512 }
    {
        if self.height < ASES {
            self.places[self.height] = place as u16;
            self.height += 1;
        }
    }

    // The one on top, taken off.
    fn pop(&mut self) -> Option<u16> {
        let top = self.height.checked_sub(1)?;
        self.height = top;
        Some(self.places[top])
    }
}

// The state of the guess: the index, how many customers the AS at each place has left, and those that have none left.
#[derive(Drop)]
struct Guess {
    index: [u32; INDEX],
    customers: [u16; ASES],
    bare: Stack,
}

impl Guess {
    // Every provider link is noted, under its customer, and counted for its provider.
    fn note_links(&mut self, survey: &Survey<'_>) {
        survey.each_link(PROVIDES, |i, provider, customer| {
            scratch::note(&mut self.index, CUSTOMERS + customer, i);
            self.customers[provider] = self.customers[provider].saturating_add(1);
        });
    }

    // Every AS that has no customer waits.
    fn push_bare(&mut self, ases: usize)
        requires { ases ≤ 512 }
    {
        for place in 0..ases {
            if self.customers[place] == 0 {
                self.bare.push(place);
            }
        }
    }

    // The AS at a place loses a customer, and waits if it was the last one.
    fn lose_customer(&mut self, place: usize)
        requires { place < 512 }
    {
        if self.customers[place] == 1 {
            self.bare.push(place);
        }
        self.customers[place] = self.customers[place].saturating_sub(1);
    }

    // The AS at a place is taken away from its providers.
    fn take(&mut self, survey: &Survey<'_>, place: u16) {
        let head = scratch::head_of(CUSTOMERS, u32::from(place));
        // Kept (d): a walk along a linked list; the iterator over an index (`Noted` of the crate table) would lend `self.index` while
        // `lose_customer` changes `self`, and would have to be public in `offers` to serve here.
        let mut noted = scratch::at(&self.index, head);
        while 0 < noted {
            let i = (noted - 1) as usize;
            if i < survey.network.links() {
                let (provider, _) = survey.ends(Way::Down, i);
                self.lose_customer(provider);
            }
            noted = scratch::noted_before(&self.index, noted);
        }
    }
}

/// The rank of each AS by its place, 1, 2, 3, .. in the order in which they go; who never goes keeps 0.
// Kept (d): 0 for no rank: `may_fall` compares ranks as numbers and `spare` tests for 0; of an `[Option<u32>; ASES]` each would take two
// apart. Lent by `peel_ranked` and not handed back, so that they stand on the stack once.
pub fn rank(survey: &Survey<'_>, ranks: &mut [u32; ASES]) {
    let mut guess = Guess {
        index: [0; INDEX],
        customers: [0; ASES],
        bare: Stack {
            places: [0; ASES],
            height: 0,
        },
    };
    guess.note_links(survey);
    guess.push_bare(survey.network.ases);
    for rank in 1..=ASES as u32 {
        let Some(place) = guess.bare.pop() else {
            break;
        };
        scratch::put(ranks, usize::from(place), rank);
        guess.take(survey, place);
    }
}
