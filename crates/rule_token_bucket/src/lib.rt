// The token bucket on one record (document 01's bucket engine). The record is the level that an admission left, and
// the moment of that admission; since then `limit` ticks a millisecond have come back, up to the capacity.
#![tactic(auto)]

ghost use Rattle.std.specs.Prelude.{◌≡◌, false};
ghost use Rattle.ticks.specs.declared.plan.Plan.{Plan};
ghost use Rattle.ticks.specs.Grains.{InForce, WithinLimits};
ghost use Rattle.plans.specs.Plans.{Looser};
ghost use Rattle.rule_token_bucket.specs.declared.Bucket.{Bucket};
ghost use Rattle.rule_token_bucket.specs.TokenBucket.{token_bucket, sound, backlog};
ghost use Rattle.rule_token_bucket.specs.Lawful.{token_bucket_lawful};

use rate::engine::Engine;
use ticks::plan::Plan;
use ticks::units::{Millis, Ticks};

pub mod planned; // which records under the plans lent are free

#[derive(Clone, Copy)]
pub struct Bucket {
    pub level: Ticks,
    pub last: Millis,
}

// Whether the record is possible; if not, the answer is number 7.
#[tactic(auto, unfolding(crate::specs::TokenBucket::sound))]
fn is_sound(plan: Plan, now: Millis, bucket: Bucket) -> bool
    ensures { result ≡ sound plan now.0 bucket }
{
    let capacity = plan.capacity();
    let level = bucket.level;
    let last = bucket.last;
    if capacity < level {
        return false;
    }
    last <= now
}

// What the record owes: what the level lacks of a full bucket, less what has come back since. The time since a last moment that
// is still to come counts as none.
#[tactic(auto, unfolding(crate::specs::TokenBucket::backlog, crate::specs::TokenBucket::level_now, crate::specs::TokenBucket::refilled))]
fn backlog(plan: Plan, now: Millis, bucket: Bucket) -> Ticks
    ensures { result.0 ≡ backlog plan now.0 bucket }
{
    let level = bucket.level;
    let capacity = plan.capacity();
    let last = bucket.last;
    let refill = plan.ticks_in(now.since(last));
    let lacking = capacity.0.saturating_sub(level.0);
    Ticks(lacking.saturating_sub(refill.0))
}

// Whether the record owes nothing. A record that is not sound is not free.
pub fn is_free(plan: Plan, now: Millis, bucket: Bucket) -> bool
    ensures { result ≡ token_bucket.free plan now.0 bucket }
{
    if !is_sound(plan, now, bucket) {
        return false;
    }
    let owed = backlog(plan, now, bucket);
    owed.0 == 0
}

// Whether the record may owe nothing by the plan or by one that is no looser: if not, it is free by none of them. It is exact of
// a record that is sound by the plan; no branch is made of it: what was left and what has come back since may be a full bucket.
pub fn may_be_free(plan: Plan, now: Millis, bucket: Bucket) -> bool
    requires { InForce plan now.0 }
    ensures { result ≡ false → (q : Plan) → WithinLimits q → Looser plan q → token_bucket.free q now.0 bucket ≡ false }
{
    let level = bucket.level;
    let capacity = plan.capacity();
    let last = bucket.last;
    let elapsed = Millis(now.0.wrapping_sub(last.0));
    let refill = plan.wrapping_ticks_in(elapsed);
    let refilled = Ticks(level.0.wrapping_add(refill.0));
    capacity.may_be_at_most(refilled)
}

// The engine; what it stores is a bucket.
pub struct TokenBucket;

impl Engine for TokenBucket {
    type Record = Bucket;

    ghost engine = { token_bucket };

    #[tactic(auto, unfolding(crate::specs::TokenBucket::token_bucket, crate::specs::TokenBucket::fresh))]
    fn fresh(plan: Plan, now: Millis) -> Bucket {
        Bucket {
            level: plan.capacity(),
            last: now,
        }
    }

    #[tactic(auto, unfolding(crate::specs::TokenBucket::token_bucket), using(rate::proofs::Judging::owes, rate::proofs::Judging::owes_none))]
    fn owed(plan: Plan, now: Millis, bucket: Bucket) -> Option<Ticks> {
        is_sound(plan, now, bucket).then(|| backlog(plan, now, bucket))
    }

    #[tactic(auto, unfolding(crate::specs::TokenBucket::token_bucket, crate::specs::TokenBucket::spend, crate::specs::TokenBucket::backlog, crate::specs::TokenBucket::level_now), using(ticks::proofs::Limits::capacity_most))]
    fn spend(plan: Plan, now: Millis, owed: Ticks, cost: u32) -> Bucket {
        let capacity = plan.capacity();
        let price = plan.price(cost);
        Bucket {
            level: Ticks(capacity.0 - (owed.0 + price.0)),
            last: now,
        }
    }

    ghost lawful = { token_bucket_lawful };
}
