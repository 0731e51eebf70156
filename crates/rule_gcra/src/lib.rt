// The Generic Cell Rate Algorithm on one record (document 01's paced engine). The record is the TAT: the moment, in
// ticks, at which nothing is owed any more.
#![tactic(auto)]

ghost use Rattle.std.specs.Prelude.{◌≡◌, ℕ};
ghost use Rattle.ticks.specs.declared.plan.Plan.{Plan};
ghost use Rattle.ticks.specs.declared.units.Ticks.{Ticks};
ghost use Rattle.ticks.specs.Grains.{InForce};
ghost use Rattle.rule_gcra.specs.Gcra.{gcra, sound, backlog};
ghost use Rattle.rule_gcra.specs.Lawful.{gcra_lawful};

use rate::engine::Engine;
use ticks::plan::Plan;
use ticks::units::{Millis, Ticks};

pub mod drained; // which records under the plans lent are free

// The record of a subscriber without one. It is the same under every plan and at every moment: nothing is owed.
#[tactic(auto, unfolding(crate::specs::Gcra::gcra, crate::specs::Gcra::fresh))]
pub fn fresh() -> Ticks
    ensures { (p : Plan) (at : ℕ) → result ≡ gcra.fresh p at }
{
    Ticks(0)
}

// What the record owes.
#[tactic(auto, unfolding(crate::specs::Gcra::backlog, crate::specs::Gcra::later))]
fn backlog(plan: Plan, now: Millis, tat: Ticks) -> Ticks
    requires { InForce plan now.0 }
    ensures { result.0 ≡ backlog plan now.0 tat }
{
    let drained = plan.ticks_at(now);
    Ticks(tat.0.saturating_sub(drained.0))
}

// Whether a record that owes so much is possible; if not, the answer is number 7.
#[tactic(auto, unfolding(crate::specs::Gcra::sound, crate::specs::Gcra::backlog, crate::specs::Gcra::later))]
fn is_sound(plan: Plan, owed: Ticks) -> bool
    ensures { (at : ℕ) (tat : Ticks) → owed.0 ≡ backlog plan at tat → result ≡ sound plan at tat }
{
    owed <= plan.capacity()
}

// The engine; what it stores is a TAT.
pub struct Gcra;

impl Engine for Gcra {
    type Record = Ticks;

    ghost engine = { gcra };

    fn fresh(_plan: Plan, _now: Millis) -> Ticks {
        crate::fresh()
    }

    #[tactic(auto, unfolding(crate::specs::Gcra::gcra), using(rate::proofs::Judging::owes, rate::proofs::Judging::owes_none))]
    fn owed(plan: Plan, now: Millis, tat: Ticks) -> Option<Ticks> {
        let owed = backlog(plan, now, tat);
        is_sound(plan, owed).then_some(owed)
    }

    #[tactic(auto, unfolding(crate::specs::Gcra::gcra, crate::specs::Gcra::spend, crate::specs::Gcra::backlog, crate::specs::Gcra::later), using(ticks::proofs::Limits::capacity_most, ticks::proofs::Limits::ticks_most))]
    fn spend(plan: Plan, now: Millis, owed: Ticks, cost: u32) -> Ticks {
        let drained = plan.ticks_at(now);
        let price = plan.price(cost);
        Ticks(drained.0 + (owed.0 + price.0))
    }

    ghost lawful = { gcra_lawful };
}
