// Plans that a host lends together, in one slice (document 02, Item 3): limit, period and burst of plan 0, then of plan 1, and so on. It
// is read as it stands, since C lends it so.
#![tactic(auto)]

ghost use Rattle.std.specs.Prelude.{◌≡◌, true, ◌<◌, length};
ghost use Rattle.plans.specs.Lent.{plans_in, setting_of};
ghost use Rattle.ticks.specs.Grains.{WithinLimits};
ghost use Rattle.plans.specs.Plans.{plan_at, known, asked, lent_ok, plans_ok, Lent};

use ticks::plan::Plan;

pub mod loosest; // a plan by which all that may be free is free
pub mod planned; // an ask and a look by any engine, under the plans lent

// The most plans that may be lent; the least is 1.
pub const MOST_PLANS: usize = 16;

// All plans that are lent, and the number of the one that is asked for.
#[derive(Clone, Copy)]
pub struct Setting<'a> {
    pub plans: &'a [u32],
    pub number: u32,
}

// How many plans are lent; 0, which is refused, if the slice holds no whole number of them: so the definition counts, and no `Option`
// is needed.
#[tactic(auto, using(crate::proofs::Lent::lent_count, crate::proofs::Lent::lent_none))]
pub fn count(plans: &[u32]) -> usize
    ensures { result ≡ length (plans_in plans.now) }
{
    if plans.len() % 3 == 0 {
        return plans.len() / 3;
    }
    0
}

// Whether a plan with the number is lent.
#[tactic(auto, unfolding(crate::specs::Plans::known))]
pub fn is_known(plans: &[u32], number: u32) -> bool
    ensures { result ≡ known (plans_in plans.now) number }
{
    (number as usize) < count(plans)
}

// The plan at a place among those that are lent.
fn nth(plans: &[u32], place: usize) -> Plan
    requires { place < length (plans_in plans.now) }
    ensures { result ≡ plan_at (plans_in plans.now) place }
{
    let first = place * 3;
    Plan {
        limit: plans[first],
        period: plans[first + 1],
        burst: plans[first + 2],
    }
}

// The plan with a number; zeros, which are no plan, if none with it is lent: the definition `plan_at` has them, and its clause names them.
#[tactic(auto, using(crate::proofs::Lent::not_lent, crate::proofs::Lent::lent_below))]
pub fn plan_at(plans: &[u32], number: u32) -> Plan
    ensures { result ≡ plan_at (plans_in plans.now) number }
{
    if !is_known(plans, number) {
        return Plan::default();
    }
    nth(plans, number as usize)
}

// The plan with a number, or the last of those that are lent if it is none of theirs: for tests that may say yes too often.
// That the plans are good (`Lent`) is required: they are lent as they stand, and a call is answered where they are not.
pub fn nearest(plans: &[u32], number: u8) -> Plan
    requires { Lent (plans_in plans.now) }
    ensures within_limits { WithinLimits result }
    ensures value { known (plans_in plans.now) number ≡ true → result ≡ plan_at (plans_in plans.now) number }
{
    let last = count(plans) - 1;
    nth(plans, (number as usize).min(last))
}

// Whether the plans lent are good: not none, no more than 16, and no bad one. No branch is made for each of them, so that the
// compiler tests several at once; one alone is spared what that takes.
fn are_ok(plans: &[u32]) -> bool
    ensures { result ≡ lent_ok (plans_in plans.now) }
{
    let lent = count(plans);
    if lent < 1 {
        return false;
    }
    if MOST_PLANS < lent {
        return false;
    }
    if lent == 1 {
        return nth(plans, 0).is_ok();
    }
    let mut ok = true;
    for i in 0..lent {
        ok &= nth(plans, i).is_ok();
    }
    ok
}

impl<'a> Setting<'a> {
    // Whether the plans lent are good and the one asked for is among them (check 1).
    #[tactic(auto, unfolding(crate::specs::Plans::plans_ok))]
    pub fn is_ok(&self) -> bool
        ensures { result ≡ plans_ok (setting_of self.now) }
    {
        are_ok(self.plans) & is_known(self.plans, self.number)
    }

    // The plan asked for; zeros, which are no plan, if it is not lent.
    pub fn asked(&self) -> Plan
        ensures { result ≡ asked (setting_of self.now) }
    {
        plan_at(self.plans, self.number)
    }
}
