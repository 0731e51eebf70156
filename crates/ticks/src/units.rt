// Two kinds of number that are never added or compared with each other (document 01, 'Grains'). `Plan` converts them.
ghost use Rattle.std.specs.Prelude.{◌≡◌, ◌-◌, ◌^◌, ◌<◌, false};
ghost use Rattle.ticks.specs.Grains.{on_clock};

// A moment or a stretch of time, in milliseconds.
#[derive(Clone, Copy, Debug, PartialEq, Eq, PartialOrd, Ord)]
pub struct Millis(pub u64);

// Ticks (document 01's grains): a millisecond is `limit` of them, a unit costs `period`.
#[derive(Clone, Copy, Debug, PartialEq, Eq, PartialOrd, Ord)]
pub struct Ticks(pub u64);

// The latest moment, 2^42 - 1.
pub const LAST_MOMENT: u64 = 4_398_046_511_103;

// Half of the numbers of 64 bits: from here on a difference that wrapped around counts as negative.
const HALF: u64 = 9_223_372_036_854_775_808; // 2^63

impl Millis {
    // Whether the moment is within the clock's limit (check 3).
    #[tactic(auto, unfolding(crate::specs::Grains::on_clock))]
    pub fn is_on_clock(self) -> bool
        ensures { result ≡ on_clock self.0 }
    {
        self.0 <= LAST_MOMENT
    }

    // The time from an earlier moment to this one; from a later moment it is none.
    pub fn since(self, earlier: Millis) -> Millis
        ensures { result.0 ≡ self.0 - earlier.0 }
    {
        Millis(self.0.saturating_sub(earlier.0))
    }
}

impl Ticks {
    // Whether these may be at most so many, a number below 2^63: if not, they are more. It is exact of numbers less than
    // 2^63 apart. The compiler makes no branch of it, and tests several at once.
    pub fn may_be_at_most(self, most: Ticks) -> bool
        ensures { most.0 < 2 ^ 63 → result ≡ false → most.0 < self.0 }
    {
        most.0.wrapping_sub(self.0) < HALF
    }
}
