// What an HTTP response says of an answer: the RateLimit fields and Retry-After, in whole seconds, rounded up so that no
// client comes too early. A host writes
//
//   RateLimit-Policy: "shop";q=QUOTA;w=WINDOW
//   RateLimit: "shop";r=REMAINING;t=RESET
//   Retry-After: RETRY_AFTER, beside status 429
//
// as the IETF's draft 'RateLimit header fields for HTTP' and RFC 9110 have them.
#![tactic(auto)]

ghost use Rattle.std.specs.Prelude.{◌≡◌};
ghost use Rattle.http_fields.specs.Fields.{seconds, window_of, planned, reported, fields_of};

use rate::answer::Numbers;
use ticks::plan::Plan;
use ticks::round;
use ticks::units::Millis;

#[derive(Clone, Copy, Default)]
pub struct Fields {
    pub quota: u64,
    pub window: u64,
    pub remaining: u64,
    pub reset: u64,
    pub retry_after: u64,
}

// The whole seconds that cover a time, rounded up.
#[tactic(auto, unfolding(crate::specs::Fields::seconds))]
fn seconds(span: Millis) -> u64
    ensures { result ≡ seconds span.0 }
{
    round::div_up(span.0, 1000)
}

// The whole seconds in which a whole burst is earned, rounded up.
#[tactic(auto, unfolding(crate::specs::Fields::window_of))]
fn window(plan: Plan) -> u64
    ensures { result ≡ window_of plan }
{
    seconds(plan.millis_to_drain(plan.capacity()))
}

// The plan alone, beside a refusal.
#[tactic(auto, unfolding(crate::specs::Fields::planned))]
fn planned(plan: Plan) -> Fields
    ensures { result ≡ planned plan }
{
    Fields {
        quota: plan.burst as u64,
        window: window(plan),
        ..Fields::default()
    }
}

// The plan, what is left, the seconds until the reset, and those to wait.
#[tactic(auto, unfolding(crate::specs::Fields::planned, crate::specs::Fields::reported))]
fn reported(plan: Plan, moment: Millis, answer: Numbers, wait: u64) -> Fields
    ensures { result ≡ reported plan moment.0 answer wait }
{
    Fields {
        remaining: answer.left,
        reset: seconds(Millis(answer.reset).since(moment)),
        retry_after: wait,
        ..planned(plan)
    }
}

// What the fields say of the five numbers of an answer that the plan got at the moment. Any numbers may be passed: a host hands them
// over by the C interface, and so the kind of the answer is a number and no enum.
#[tactic(auto, unfolding(crate::specs::Fields::fields_of, crate::specs::Fields::silent))]
pub fn header_fields(plan: Plan, moment: Millis, answer: Numbers) -> Fields
    ensures { result ≡ fields_of plan moment.0 answer }
{
    if !plan.is_ok() {
        return Fields::default(); // nothing to say: zeros, as the definition `silent` has them
    }
    if answer.number == 0 {
        return reported(plan, moment, answer, 0);
    }
    if answer.number == 8 {
        return reported(plan, moment, answer, seconds(Millis(answer.wait)));
    }
    planned(plan)
}
