// A plan (document 01, 'Grains'): `limit` units per `period` milliseconds, and a burst of `burst` units on top.
ghost use Rattle.std.specs.Prelude.{◌≡◌, ◌-◌, ◌*◌, ◌^◌, ◌<◌, min};
ghost use Rattle.ticks.specs.Grains.{ticks_in, price, capacity, div_up, one_to, plan_ok, InForce};

use crate::round;
use crate::units::{Millis, Ticks};

// The most that document 01 allows; the least of each is 1.
pub const MOST_LIMIT: u32 = 1_000_000;

pub const MOST_PERIOD: u32 = 2_678_400_000; // 31 days

pub const MOST_BURST: u32 = 1_000_000;

// A time and a limit below these, as all within document 01's limits are, have a product below 2^64.
const SHORT_SPAN: u64 = 17_592_186_044_416; // 2^44

const SMALL_LIMIT: u32 = 1_048_576; // 2^20

const WORD: u64 = 4_294_967_296; // 2^32

#[derive(Clone, Copy, Default)]
pub struct Plan {
    pub limit: u32,
    pub period: u32,
    pub burst: u32,
}

// Whether x is at least 1 and at most `most`. No branch is made of it, as the library's `(1..=most).contains(&x)` makes.
#[tactic(auto, unfolding(crate::specs::Grains::one_to))]
fn is_one_to(most: u32, x: u32) -> bool
    ensures { result ≡ one_to most x }
{
    (1 <= x) & (x <= most)
}

impl Plan {
    // Whether limit, period and burst are within document 01's limits (check 1). No branch is made of it.
    #[tactic(auto, unfolding(crate::specs::Grains::plan_ok))]
    pub fn is_ok(self) -> bool
        ensures { result ≡ plan_ok self }
    {
        is_one_to(MOST_LIMIT, self.limit)
            & (is_one_to(MOST_PERIOD, self.period) & is_one_to(MOST_BURST, self.burst))
    }

    // What a cost is in ticks.
    #[tactic(auto, unfolding(crate::specs::Grains::price))]
    pub fn price(self, cost: u32) -> Ticks
        ensures { result.0 ≡ price self cost }
    {
        Ticks(self.period as u64 * cost as u64)
    }

    // A full bucket in ticks, the most that may be owed.
    #[tactic(auto, unfolding(crate::specs::Grains::capacity, crate::specs::Grains::price))]
    pub fn capacity(self) -> Ticks
        ensures { result.0 ≡ capacity self }
    {
        self.price(self.burst)
    }

    // What a stretch of time is in ticks. A product of 2^64 or more, which no moment within the clock's limit and no
    // plan within its limits gives, is the largest u64: at least any stored number, so that no comparison is wrong. `saturating_mul`
    // divides, which the products that fit are spared.
    #[tactic(auto, unfolding(crate::specs::Grains::ticks_in))]
    pub fn ticks_in(self, span: Millis) -> Ticks
        ensures { result.0 ≡ min (ticks_in self span.0) (2 ^ 64 - 1) }
    {
        if SMALL_LIMIT <= self.limit || SHORT_SPAN <= span.0 {
            return Ticks(span.0.saturating_mul(self.limit as u64));
        }
        Ticks(span.0 * self.limit as u64)
    }

    // What a moment within the clock's limit is in ticks of a plan within its limits: the product fits, and no test is made.
    #[tactic(auto, unfolding(crate::specs::Grains::ticks_in))]
    pub fn ticks_at(self, moment: Millis) -> Ticks
        requires { InForce self moment.0 }
        ensures { result.0 ≡ ticks_in self moment.0 }
    {
        Ticks(moment.0 * self.limit as u64)
    }

    // What a stretch of time is in ticks, if that is below 2^64; if not, any number. No branch is made of it, and the compiler
    // reckons several at once: its two products are of 32 bits each.
    #[tactic(auto, unfolding(crate::specs::Grains::ticks_in), using(crate::proofs::Products::product_split))]
    pub fn wrapping_ticks_in(self, span: Millis) -> Ticks
        ensures { ticks_in self span.0 < 2 ^ 64 → result.0 ≡ ticks_in self span.0 }
    {
        let factor = self.limit as u64;
        let high = span.0 / WORD * factor;
        let low = span.0 % WORD * factor;
        Ticks((high % WORD * WORD).wrapping_add(low))
    }

    // The least whole milliseconds in which so many ticks drain: rounded up.
    pub fn millis_to_drain(self, ticks: Ticks) -> Millis
        ensures { result.0 ≡ div_up ticks.0 self.limit }
    {
        Millis(round::div_up(ticks.0, self.limit as u64))
    }
}
