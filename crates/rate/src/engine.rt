// An engine by one plan, on one record: document 01's formulas, and an ask and a look by them. GCRA and the token bucket are two types of
// it.
ghost use Rattle.std.specs.Prelude.{◌≡◌};
ghost use Rattle.ticks.specs.Grains.{InForce};
ghost use Rattle.rate.specs.Answer.{verdict_of};
ghost use Rattle.rate.specs.Decision.{Admitting};
ghost use Rattle.rate.specs.Engine.{Engine};
ghost use Rattle.rate.specs.Lawful.{Lawful};
ghost use Rattle.rate.specs.Account.{alone, judge, report, kept, settled};
ghost use Rattle.rate.specs.Judgement.{owed_of, judgement_of};

use crate::answer::{Outcome, Reason};
use crate::decision;
use ticks::plan::Plan;
use ticks::units::{Millis, Ticks};

// An engine: what it stores for one subscriber, and its formulas. `InForce` and `Admitting` are facts of a plan, a moment and a backlog
// together, which the checks of a call have just found: a type for them would be made in each call and taken apart in the next line.
pub trait Engine {
    type Record: Copy;

    ghost engine: { Engine Self.Record };

    // The record of a subscriber without one: a full bucket.
    fn fresh(plan: Plan, now: Millis) -> Self::Record
        ensures { result ≡ engine.fresh plan now.0 };

    // What a record owes, if it is possible; if not, the answer is number 7.
    fn owed(plan: Plan, now: Millis, held: Self::Record) -> Option<Ticks>
        requires { InForce plan now.0 }
        ensures { result ≡ owed_of engine plan now.0 held };

    // The record after a cost was admitted on top of what was owed.
    fn spend(plan: Plan, now: Millis, owed: Ticks, cost: u32) -> Self::Record
        requires { Admitting plan now.0 owed.0 cost }
        ensures { (held : Self.Record) → owed.0 ≡ engine.backlog plan now.0 held → result ≡ engine.spend plan now.0 held cost };

    // It has the backlog law.
    ghost lawful: { Lawful engine };
}

// What is answered to an ask, and the record that is put in the other's place, if any.
#[derive(Clone, Copy)]
pub struct Judgement<R> {
    pub outcome: Outcome,
    pub record: Option<R>,
}

impl<R: Copy> Judgement<R> {
    // An answer, and the record as it is.
    #[tactic(auto, unfolding(crate::specs::Judgement::judgement_of, crate::specs::Judgement::put))]
    pub fn kept(outcome: Outcome) -> Judgement<R>
        ensures { judgement_of result ≡ kept (verdict_of outcome) }
    {
        Judgement {
            outcome,
            record: None,
        }
    }
}

// An ask, judged on one record.
pub fn judge<E: Engine>(plan: Plan, now: Millis, held: E::Record, cost: u32) -> Judgement<E::Record>
    requires { InForce plan now.0 }
    ensures { judgement_of result ≡ settled (judge (alone E.engine) plan now.0 held cost) }
{
    let Some(owed) = E::owed(plan, now, held) else {
        return Judgement::kept(Outcome::Refused(Reason::CorruptRecord));
    };
    if decision::admits(plan, owed, cost) {
        return Judgement {
            outcome: decision::admit(plan, now, owed, cost),
            record: Some(E::spend(plan, now, owed, cost)),
        };
    }
    Judgement::kept(decision::throttle(plan, now, owed, cost))
}

// A look at one record.
pub fn report<E: Engine>(plan: Plan, now: Millis, held: E::Record) -> Outcome
    requires { InForce plan now.0 }
    ensures { verdict_of result ≡ report (alone E.engine) plan now.0 held }
{
    let Some(owed) = E::owed(plan, now, held) else {
        return Outcome::Refused(Reason::CorruptRecord);
    };
    decision::report(plan, now, owed)
}
