// A run: the choices one after the other, then the lowest waiting direction again and again.
use super::Counts;
use super::state::Machine;

impl<'a> Machine<'a> {
    ghost use Rattle.std.specs.Prelude.{ℕ, ◌+◌, ◌*◌, ◌≤◌, ◌<◌, length, get_or};
    ghost use Rattle.machine.specs.Steps.{FirstDelivery};
    ghost use Rattle.machine.specs.States.{Stays, ChoosesAll, GoesOn};

    // The first choice from one on on whose direction something waits, if there is one.
    fn next_delivery(&self, choices: &[u32], from: usize) -> Option<usize>
        requires { (i : ℕ) → i < length choices.now → get_or choices.now i 0 < 2 * self.now.links }
        ensures { FirstDelivery self.now.links self.now.room.now choices.now from result }
    {
        for i in from..choices.len() {
            if self.waits(choices[i] as usize) {
                return Some(i);
            }
        }
        None
    }

    // All choices, in their order.
    // Kept (b): a `while` from one delivery to the next, not `for k in choices`: idle choices, which may be nearly all, are passed while the machine
    // is only read, so that its parts need not be loaded again at each; with the `for` they take a quarter more time.
    pub fn take_choices(&mut self, choices: &[u32]) -> Counts
        requires directions { (i : ℕ) → i < length choices.now → get_or choices.now i 0 < 2 * self.old.links }
        requires few { length choices.now ≤ 65536 }
        ensures stays { Stays self.old self.new }
        ensures chooses { ChoosesAll self.old choices.now self.new result }
    {
        let mut counts = Counts { made: 0, idle: 0 };
        let mut passed = 0;
        while let Some(next) = self.next_delivery(choices, passed) {
            self.deliver(choices[next] as usize);
            counts = Counts {
                made: counts.made + 1,
                idle: counts.idle + (next - passed),
            };
            passed = next + 1;
        }
        Counts {
            made: counts.made,
            idle: counts.idle + (choices.len() - passed),
        }
    }

    // So many further deliveries, the lowest waiting direction first, or fewer where nothing waits any more.
    pub fn go_on(&mut self, further: u32, mut counts: Counts) -> Counts
        requires few { counts.made ≤ 65536 }
        requires deliveries { further ≤ 65536 }
        ensures stays { Stays self.old self.new }
        ensures goes_on { GoesOn self.old further counts self.new result }
    {
        for _ in 0..further {
            let Some(k) = self.first_waiting() else {
                break;
            };
            self.deliver(k);
            counts.made += 1;
        }
        counts
    }
}
