// One record under the plans lent (document 02, Item 3), which keeps the number of its plan: an ask and a look, by any engine.
ghost use Rattle.std.specs.Prelude.{◌≡◌};
ghost use Rattle.rate.specs.Answer.{verdict_of};
ghost use Rattle.rate.specs.Account.{judge, report, settled};
ghost use Rattle.rate.specs.Judgement.{judgement_of};
ghost use Rattle.plans.specs.Lent.{setting_of};
ghost use Rattle.plans.specs.Plans.{planned, Lending};
ghost use Rattle.plans.specs.Standing.{standing, standing_of};

use crate::{Setting, is_known, plan_at};
use rate::answer::{Outcome, Reason};
use rate::engine;
use rate::engine::{Engine, Judgement};
use ticks::units::Millis;

// What is stored for one subscriber: the number of the plan, and the engine's record.
#[derive(Clone, Copy)]
pub struct Planned<R> {
    pub number: u32,
    pub held: R,
}

// `Lending` is a fact of a setting and a moment together, which the checks of each call find: a type for it would be made there and taken
// apart here.

// The engine's record that is judged by the plan asked for, or what stands in the way: a record of that plan is judged as it is; of
// another plan, who owes nothing is judged as having no record.
fn stands<E: Engine>(
    setting: &Setting,
    moment: Millis,
    stored: Planned<E::Record>,
) -> Result<E::Record, Reason>
    requires { Lending (setting_of setting.now) moment.0 }
    ensures { standing_of result ≡ standing E.engine (setting_of setting.now) moment.0 stored }
{
    if stored.number == setting.number {
        return Ok(stored.held);
    }
    if !is_known(setting.plans, stored.number) {
        return Err(Reason::CorruptRecord);
    }
    let own = plan_at(setting.plans, stored.number);
    let owed = E::owed(own, moment, stored.held).ok_or(Reason::CorruptRecord)?;
    if owed.0 == 0 {
        return Ok(E::fresh(setting.asked(), moment));
    }
    Err(Reason::OtherPlan)
}

// An ask under the plan asked for, judged on one record; what is put in its place is of that plan.
pub fn judge<E: Engine>(
    setting: &Setting,
    moment: Millis,
    stored: Planned<E::Record>,
    cost: u32,
) -> Judgement<Planned<E::Record>>
    requires { Lending (setting_of setting.now) moment.0 }
    ensures { judgement_of result ≡ settled (judge (planned E.engine) (setting_of setting.now) moment.0 stored cost) }
{
    let number = setting.number;
    match stands::<E>(setting, moment, stored) {
        Ok(current) => {
            let judged = engine::judge::<E>(setting.asked(), moment, current, cost);
            Judgement {
                outcome: judged.outcome,
                record: judged.record.map(|held| Planned { number, held }),
            }
        }
        Err(reason) => Judgement::kept(Outcome::Refused(reason)),
    }
}

// A look at one record under the plan asked for.
pub fn report<E: Engine>(setting: &Setting, moment: Millis, stored: Planned<E::Record>) -> Outcome
    requires { Lending (setting_of setting.now) moment.0 }
    ensures { verdict_of result ≡ report (planned E.engine) (setting_of setting.now) moment.0 stored }
{
    match stands::<E>(setting, moment, stored) {
        Ok(current) => engine::report::<E>(setting.asked(), moment, current),
        Err(reason) => Outcome::Refused(reason),
    }
}
