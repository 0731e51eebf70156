// A plan that is looser than each of those that are lent: what is not free by it is free by none of them.
ghost use Rattle.std.specs.Prelude.{◌≡◌, ℕ, ◌<◌, length};
ghost use Rattle.ticks.specs.Grains.{WithinLimits};
ghost use Rattle.plans.specs.Lent.{plans_in};
ghost use Rattle.plans.specs.Plans.{plan_at, Lent, Looser};

use ticks::plan::Plan;

// The limit of the plan with the larger one, and period and burst of the plan with the smaller capacity.
fn looser(p: Plan, q: Plan) -> Plan
    ensures looser { Looser result p × Looser result q }
    ensures within_limits { WithinLimits p → WithinLimits q → WithinLimits result }
{
    let held = p.capacity();
    let holds = q.capacity();
    let limit = p.limit.max(q.limit);
    // compared as numbers, whose order the proof has
    if held.0 < holds.0 {
        return Plan {
            limit,
            period: p.period,
            burst: p.burst,
        };
    }
    Plan {
        limit,
        period: q.period,
        burst: q.burst,
    }
}

// The largest limit of all, and period and burst of the plan with the least capacity.
pub fn loosest(plans: &[u32]) -> Plan
    requires { Lent (plans_in plans.now) }
    ensures within_limits { WithinLimits result }
    ensures looser { (k : ℕ) → k < length (plans_in plans.now) → Looser result (plan_at (plans_in plans.now) k) }
{
    let lent = crate::count(plans);
    let mut loosest = crate::nth(plans, 0);
    for i in 1..lent {
        loosest = looser(loosest, crate::nth(plans, i));
    }
    loosest
}
