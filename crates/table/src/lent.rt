// Columns that a host lends, as a call reads them, and as it writes them. The tables of two engines are two types of it.
ghost use Rattle.std.specs.Prelude.{◌≡◌, ◌≤◌, ◌<◌};
ghost use Rattle.plans.specs.declared.planned.Planned.{Planned};
ghost use Rattle.plans.specs.Plans.{planned, Lending};
ghost use Rattle.table.specs.Rule.{rule_of};
ghost use Rattle.table.specs.Slots.{Columns, own, lowest_free};
ghost use Rattle.table.specs.Seen.{Sight, sights};
ghost use Rattle.table.specs.Lent.{asked_of, asks_of, ruling_of};
ghost use Rattle.table.specs.Calls.{judge_call};

use crate::calls::Ruling;
use crate::request::{Query, Request};
use plans::planned::Planned;
use rate::engine::Engine;
use ticks::units::Millis;

pub trait Slots {
    // The engine whose records stand in the slots.
    type By: Engine;

    ghost sight: { Self → Sight (Planned Self.By.Record) };

    // How many slots; 0, which no table has, if the columns are unequal.
    fn count(&self) -> usize
        ensures { result ≡ (sight self.now).seen.slots };

    // The newest moment at which anything was admitted.
    fn newest(&self) -> Millis
        ensures { result.0 ≡ (sight self.now).newest };

    // The subscriber's slot, the lowest that carries its number.
    fn find(&self, subscriber: u32) -> Option<usize>
        requires { 1 ≤ (sight self.now).seen.slots }
        ensures { result ≡ own sights subscriber (sight self.now) };

    // What stands in a slot.
    fn row(&self, place: usize) -> Planned<<Self::By as Engine>::Record>
        requires { place < (sight self.now).seen.slots }
        ensures { result ≡ (sight self.now).seen.row place };

    // The lowest free slot.
    fn lowest_free(&self, query: &Query) -> Option<usize>
        requires { Lending (asked_of query.now).setting (asked_of query.now).moment }
        ensures { result ≡ lowest_free (rule_of (planned Self.By.engine)) sights (asked_of query.now).setting (asked_of query.now).moment
            (sight self.now) };
}

// Columns that are lent to be written: what a call does to them, one by one. Each engine's `newest`, `find`, `count` and `judge` are one
// line over its own columns: these as they are read would be an associated type with a lifetime, which Rattle has not.
pub trait SlotsMut {
    // The engine whose records stand in the slots.
    type By: Engine;

    // What is stored, how it is read and written, and that the same columns are lent.
    ghost Content: { Type 0 };

    ghost columns: { Columns Content (Planned Self.By.Record) };

    ghost content: { Self → Content };

    ghost same_loan: { Self → Self → Type 0 };

    // How many slots; 0, which no table has, if the columns are unequal.
    fn count(&self) -> usize
        ensures { result ≡ columns.slots (content self.now) };

    // An acquire judged: nothing is written.
    fn judge(&self, request: &Request) -> Ruling<Planned<<Self::By as Engine>::Record>>
        ensures { ruling_of result ≡ judge_call (rule_of (planned Self.By.engine)) columns (asks_of request.now) (content self.now) };

    // A slot overwritten whole, and the newest moment.
    fn put(
        &mut self,
        place: usize,
        subscriber: u32,
        moment: Millis,
        stored: Planned<<Self::By as Engine>::Record>,
    )
        requires place_in_bounds { place < columns.slots (content self.old) }
        requires number_fits { stored.number < 256 }
        ensures loan { same_loan self.old self.new }
        ensures after { content self.new ≡ columns.put (content self.old) place subscriber moment.0 stored };

    // All zeros.
    fn zero(&mut self)
        ensures loan { same_loan self.old self.new }
        ensures after { content self.new ≡ columns.zeros (content self.old) };

    // What is not written stays lent.
    ghost stays_lent: { (table : Self) → same_loan table table };
}
