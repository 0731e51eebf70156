// Which records under the plans lent are free: what the moment is in ticks of each plan is reckoned once, for many records.
ghost use Rattle.std.specs.Prelude.{◌≡◌, false, ◌&&◌, List, ℕ, ◌≤◌, length};
ghost use Rattle.ticks.specs.declared.plan.Plan.{Plan};
ghost use Rattle.plans.specs.Lent.{plans_in};
ghost use Rattle.plans.specs.Plans.{Plans, known, plan_at, Lending};
ghost use Rattle.rule_gcra.specs.Gcra.{gcra};
ghost use Rattle.rule_gcra.specs.Planned.{Drained};

use plans::MOST_PLANS;
use ticks::units::{Millis, Ticks};

// For each plan that is lent, what a moment is in its ticks: a TAT up to that owes nothing. `lent` is how many are, at most 16 as
// MOST_PLANS says. No heap: the moments stand in fixed memory.
#[derive(Clone, Copy)]
pub struct Moments {
    pub column: [u64; MOST_PLANS],
    pub lent: usize,
    ghost lent_bound: { lent ≤ 16 },
}

impl Moments {
    pub fn new(plans: &[u32], moment: Millis) -> Moments
        requires { length (plans_in plans.now) ≤ 16 }
        ensures lent { result.lent ≡ length (plans_in plans.now) }
        ensures column { Drained (plans_in plans.now) moment.0 result.column }
    {
        let lent = plans::count(plans);
        let mut column = [0; MOST_PLANS];
        for i in 0..lent {
            let ticks = plans::plan_at(plans, i as u32).ticks_in(moment);
            column[i] = ticks.0;
        }
        Moments { column, lent }
    }

    // Whether a record owes nothing by its own plan. One of a plan that is not lent is not free. The number is a byte, as it is stored,
    // and no `Planned` is made for a slot that is only tested.
    #[tactic(auto, using(crate::proofs::Freeing::unlent_not_free, crate::proofs::Freeing::lent_free))]
    pub fn is_free(&self, number: u8, tat: Ticks) -> bool
        ensures { (ps : List Plan) (at : ℕ) → self.now.lent ≡ length ps → Drained ps at self.now.column →
            result ≡ (known ps number && gcra.free (plan_at ps number) at tat) }
    {
        let place = number as usize;
        if self.lent <= place {
            return false;
        }
        tat.0 <= self.column[place]
    }

    // Whether a record may owe nothing by its own plan: if not, it is not free. No branch is made of it.
    #[tactic(auto, using(crate::proofs::Freeing::beyond_looked_up))]
    pub fn may_be_free(&self, number: u8, tat: Ticks) -> bool
        ensures { (p : Plans) (at : ℕ) → Lending p at → Drained p.plans at self.now.column → result ≡ false →
            (known p.plans number && gcra.free (plan_at p.plans number) at tat) ≡ false }
    {
        let place = (number % 16) as usize;
        tat.may_be_at_most(Ticks(self.column[place]))
    }
}
