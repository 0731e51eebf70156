// Which records under the plans lent are free (document 02, Item 3): a record keeps the number of its plan.
ghost use Rattle.std.specs.Prelude.{◌≡◌, true, false, ◌&&◌};
ghost use Rattle.ticks.specs.Grains.{on_clock};
ghost use Rattle.plans.specs.Plans.{known, plan_at, Lent};
ghost use Rattle.plans.specs.Lent.{plans_in};
ghost use Rattle.rule_token_bucket.specs.TokenBucket.{token_bucket};

use crate::Bucket;
use ticks::units::Millis;

// Whether a record owes nothing by its own plan. One of a plan that is not lent is not free. Number and record are no `Planned`: none is
// made for a slot that is only tested.
#[tactic(auto, using(crate::proofs::Freeing::unlent_not_free, crate::proofs::Freeing::lent_free))]
pub fn is_free(plans: &[u32], moment: Millis, number: u32, bucket: Bucket) -> bool
    ensures { result ≡ (known (plans_in plans.now) number
        && token_bucket.free (plan_at (plans_in plans.now) number) moment.0 bucket) }
{
    if !plans::is_known(plans, number) {
        return false;
    }
    crate::is_free(plans::plan_at(plans, number), moment, bucket)
}

// Whether a record may owe nothing by its own plan: if not, it is not free. No branch is made of it.
pub fn may_be_free(plans: &[u32], moment: Millis, number: u8, bucket: Bucket) -> bool
    requires lent { Lent (plans_in plans.now) }
    requires moment_on_clock { on_clock moment.0 ≡ true }
    ensures { result ≡ false → (known (plans_in plans.now) number
        && token_bucket.free (plan_at (plans_in plans.now) number) moment.0 bucket) ≡ false }
{
    crate::may_be_free(plans::nearest(plans, number), moment, bucket)
}
