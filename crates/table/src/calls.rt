// The calls on a table, by any engine: ask, look and clear. Only an ask that is admitted, and a clear, write.
ghost use Rattle.std.specs.Prelude.{◌≡◌, ◌≤◌};
ghost use Rattle.rate.specs.Account.{report};
ghost use Rattle.rate.specs.Answer.{numbers_of, cleared_numbers, verdict_of};
ghost use Rattle.plans.specs.Plans.{planned, Lending};
ghost use Rattle.table.specs.Rule.{rule_of};
ghost use Rattle.table.specs.Seen.{sights};
ghost use Rattle.table.specs.Lent.{gate_in, asked_of, asks_of, slot_of, ruling_of};
ghost use Rattle.table.specs.Calls.{keep, gate, slot_for, judge_call, acquire, peek, clear};

use crate::check;
use crate::check::{Gate, Toll};
use crate::lent::{Slots, SlotsMut};
use crate::request::{Query, Request};
use plans::planned;
use plans::planned::Planned;
use rate::answer::{Answer, Outcome, Reason};
use rate::engine;
use rate::engine::Engine;

// A slot, and a record: the one that is judged, or the one to be written.
#[derive(Clone, Copy)]
pub struct Slot<R> {
    pub place: usize,
    pub held: R,
}

// An acquire as judged: what is answered, and what is to be written, if anything.
#[derive(Clone, Copy)]
pub struct Ruling<R> {
    pub outcome: Outcome,
    pub written: Option<Slot<R>>,
}

impl<R: Copy> Ruling<R> {
    // An answer, and nothing to be written.
    #[tactic(auto, unfolding(crate::specs::Lent::ruling_of, crate::specs::Lent::written_of))]
    pub fn kept(outcome: Outcome) -> Ruling<R>
        ensures { ruling_of result ≡ keep (verdict_of outcome) }
    {
        Ruling {
            outcome,
            written: None,
        }
    }
}

// A fresh record under the plan asked for.
fn fresh<E: Engine>(query: &Query) -> Planned<E::Record>
    ensures { result ≡ (planned E.engine).fresh (asked_of query.now).setting (asked_of query.now).moment }
{
    Planned {
        number: query.setting.number,
        held: E::fresh(query.setting.asked(), query.moment),
    }
}

// What a look says of a subscriber without a slot: what the engine says of a fresh record. It is of the plan asked for, and so takes
// none of the tests of a stored one.
fn report_fresh<E: Engine>(query: &Query) -> Outcome
    requires { Lending (asked_of query.now).setting (asked_of query.now).moment }
    ensures { verdict_of result ≡ report (planned E.engine) (asked_of query.now).setting (asked_of query.now).moment
        ((planned E.engine).fresh (asked_of query.now).setting (asked_of query.now).moment) }
{
    let plan = query.setting.asked();
    engine::report::<E>(plan, query.moment, E::fresh(plan, query.moment))
}

// What the checks look at.
fn gate<S: Slots>(slots: &S, query: &Query) -> Gate
    ensures { gate_in result ≡ gate (rule_of (planned S.By.engine)) sights (asked_of query.now) (S.sight slots.now) }
{
    Gate {
        ok: query.setting.is_ok(),
        slots: slots.count(),
        newest: slots.newest(),
        moment: query.moment,
        subscriber: query.subscriber,
    }
}

// The slot of an acquire (document 01, 'Seats'): the own one, or else the lowest free one with a fresh record.
fn slot_for<S: Slots>(slots: &S, query: &Query) -> Option<Slot<Planned<<S::By as Engine>::Record>>>
    requires table { 1 ≤ (S.sight slots.now).seen.slots }
    requires lending { Lending (asked_of query.now).setting (asked_of query.now).moment }
    ensures { slot_of result ≡ slot_for (rule_of (planned S.By.engine)) sights (asked_of query.now) (S.sight slots.now) }
{
    if let Some(place) = slots.find(query.subscriber) {
        return Some(Slot {
            place,
            held: slots.row(place),
        });
    }
    let place = slots.lowest_free(query)?;
    Some(Slot {
        place,
        held: fresh::<S::By>(query),
    })
}

// An acquire judged: the checks; then the record in its slot, of which there may be none. Only an admission writes.
pub fn judge<S: Slots>(slots: &S, request: &Request) -> Ruling<Planned<<S::By as Engine>::Record>>
    ensures { ruling_of result ≡ judge_call (rule_of (planned S.By.engine)) sights (asks_of request.now) (S.sight slots.now) }
{
    let query = &request.query;
    let toll = Toll {
        gate: gate(slots, query),
        most: query.setting.asked().burst,
        cost: request.cost,
    };
    if let Err(reason) = check::request(toll) {
        return Ruling::kept(Outcome::Refused(reason));
    }
    let Some(slot) = slot_for(slots, query) else {
        return Ruling::kept(Outcome::Refused(Reason::TableFull));
    };
    let judged = planned::judge::<S::By>(&query.setting, query.moment, slot.held, request.cost);
    Ruling {
        outcome: judged.outcome,
        written: judged.record.map(|held| Slot {
            place: slot.place,
            held,
        }),
    }
}

// A look: the checks but the cost's; then the own record. Without a slot the bucket is full.
pub fn peek<S: Slots>(slots: &S, query: &Query) -> Answer
    ensures { numbers_of result ≡ (peek (rule_of (planned S.By.engine)) sights (asked_of query.now) (S.sight slots.now)).answer }
{
    let subscriber = query.subscriber;
    if let Err(reason) = check::query(gate(slots, query)) {
        return Answer {
            subscriber,
            outcome: Outcome::Refused(reason),
        };
    }
    let Some(place) = slots.find(subscriber) else {
        return Answer {
            subscriber,
            outcome: report_fresh::<S::By>(query),
        };
    };
    let held = slots.row(place);
    Answer {
        subscriber,
        outcome: planned::report::<S::By>(&query.setting, query.moment, held),
    }
}

// An ask: whether the subscriber gets the cost at the moment. If so it is spent.
pub fn acquire<T: SlotsMut>(table: &mut T, request: &Request) -> Answer
    ensures loan { T.same_loan table.old table.new }
    ensures answer { numbers_of result ≡ (acquire (rule_of (planned T.By.engine)) T.columns (asks_of request.now)
        (T.content table.old)).answer }
    ensures table_after { T.content table.new ≡ (acquire (rule_of (planned T.By.engine)) T.columns (asks_of request.now)
        (T.content table.old)).after }
{
    let subscriber = request.query.subscriber;
    let ruling = table.judge(request);
    let told = Answer {
        subscriber,
        outcome: ruling.outcome,
    };
    let Some(slot) = ruling.written else {
        return told;
    };
    table.put(slot.place, subscriber, request.query.moment, slot.held);
    told
}

// A clear: every column all zeros and the newest moment 0, if the columns are a table.
pub fn clear<T: SlotsMut>(table: &mut T) -> Result<(), Reason>
    ensures loan { T.same_loan table.old table.new }
    ensures answer { cleared_numbers result ≡ (clear T.columns (T.content table.old)).answer }
    ensures table_after { T.content table.new ≡ (clear T.columns (T.content table.old)).after }
{
    if !check::is_slot_count(table.count()) {
        return Err(Reason::BadTable);
    }
    table.zero();
    Ok(())
}
