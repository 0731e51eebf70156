// When a request that is not admitted would be (document 02, Item 13). Every rule that makes a request wait answers through
// these functions.
ghost use Rattle.std.specs.Prelude.{◌≡◌};
ghost use Rattle.rate.specs.Answer.{verdict_of};
ghost use Rattle.rate.specs.Decision.{retry_from, denied};

use crate::answer::{Outcome, Reason};
use ticks::units::{LAST_MOMENT, Millis};

// A wait from a moment on, if its end is within the clock's limit; none is document 02's "not on this clock".
#[tactic(auto, using(crate::proofs::ClockEnd::retry_fits, crate::proofs::ClockEnd::retry_ends_beyond))]
pub fn retry_from(now: Millis, wait: Millis) -> Option<Millis>
    ensures { result ≡ retry_from now.0 wait.0 }
{
    if LAST_MOMENT < now.0 {
        return None;
    }
    if LAST_MOMENT - now.0 < wait.0 {
        return None;
    }
    Some(wait)
}

// The answer to a request that is not admitted: it must wait, or it is not served while this clock lasts.
#[tactic(auto, unfolding(crate::specs::Decision::denied, crate::specs::Decision::bare, crate::specs::Answer::verdict_of, crate::specs::Answer::reason_number))]
pub fn denied(retry: Option<Millis>, remaining: u32, reset: Millis) -> Outcome
    ensures { verdict_of result ≡ denied remaining reset.0 retry }
{
    match retry {
        Some(retry_after) => Outcome::Throttled {
            remaining,
            reset_at: reset,
            retry_after,
        },
        None => Outcome::Refused(Reason::NotOnClock),
    }
}
