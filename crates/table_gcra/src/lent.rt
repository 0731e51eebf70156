// The columns that a host lends. As a call reads them: how many slots, whose they are, what stands in one, and the lowest free one
// (document 01, 'Seats'), which is empty or owes nothing by its own plan. And as it writes them.
ghost use Rattle.std.specs.Prelude.{◌≡◌, refl, false, ℕ, ◌≤◌, ◌<◌, length};
ghost use Rattle.plans.specs.Plans.{Plans, Lending};
ghost use Rattle.rule_gcra.specs.Planned.{Drained};
ghost use Rattle.table.specs.Seen.{sight_in};
ghost use Rattle.table.specs.Slots.{vacant, NoneFrom};
ghost use Rattle.table_gcra.specs.Table.{Table, lent_of, table_in, columns, SameLoan, rule};

use crate::Table;
use plans::loosest;
use plans::planned::Planned;
use rule_gcra::Gcra;
use rule_gcra::drained::Moments;
use table::blocks::BLOCK;
use table::calls::Ruling;
use table::columns::{self, common};
use table::lent::{Slots, SlotsMut};
use table::request::{Query, Request};
use table::{blocks, calls, search};
use ticks::units::{Millis, Ticks};

// The columns, beside each other as C lends them, and the newest moment.
#[derive(Clone, Copy)]
pub struct Columns<'a> {
    pub ids: &'a [u32],
    pub numbers: &'a [u8],
    pub tats: &'a [u64],
    pub newest: &'a u64,
}

impl<'a> Columns<'a> {
    // Whether one of the slots from one up to another may be free, each by its own plan: if not, none is. `drained` has the moment in
    // ticks of each plan.
    fn may_be_vacant(&self, drained: &Moments, from: usize, to: usize) -> bool
        requires { to ≤ columns.slots (lent_of self.now) }
        ensures { (p : Plans) (at : ℕ) → Lending p at → Drained p.plans at drained.now.column → result ≡ false →
            NoneFrom (vacant rule columns p at (lent_of self.now)) from to }
    {
        search::may_carry(self.ids, from, to, 0)
            | blocks::may_pass(from, to, |i| {
                drained.may_be_free(self.numbers[i], Ticks(self.tats[i]))
            })
    }

    // Whether a slot is free.
    fn is_vacant(&self, drained: &Moments, place: usize) -> bool
        requires { place < columns.slots (lent_of self.now) }
        ensures { (p : Plans) (at : ℕ) → drained.now.lent ≡ length p.plans → Drained p.plans at drained.now.column →
            result ≡ vacant rule columns p at (lent_of self.now) place }
    {
        self.ids[place] == 0 || drained.is_free(self.numbers[place], Ticks(self.tats[place]))
    }
}

impl<'a> Slots for Columns<'a> {
    type By = Gcra;

    ghost sight = { λ c. sight_in columns (lent_of c) };

    #[tactic(auto, unfolding(crate::specs::Table::records))]
    fn count(&self) -> usize {
        let records = common(self.ids.len(), self.tats.len());
        common(records, self.numbers.len())
    }

    #[tactic(auto, unfolding(crate::specs::Table::records))]
    fn newest(&self) -> Millis {
        Millis(*self.newest)
    }

    fn find(&self, subscriber: u32) -> Option<usize> {
        search::find(self.ids, subscriber)
    }

    fn row(&self, place: usize) -> Planned<Ticks> {
        Planned {
            number: self.numbers[place] as u32,
            held: Ticks(self.tats[place]),
        }
    }

    // Blocks in which none is empty and no TAT may be drained are passed over whole: as far as it goes by what none of the plans
    // exceeds, and then each slot by its own plan.
    fn lowest_free(&self, query: &Query) -> Option<usize> {
        let plans = query.setting.plans;
        let drained = Moments::new(plans, query.moment);
        let most = loosest::loosest(plans).ticks_in(query.moment);
        blocks::lowest::<BLOCK, _, _, _>(
            self.count(),
            |at| {
                search::may_carry(self.ids, at, at + BLOCK, 0)
                    | search::may_be_at_most(self.tats, at, at + BLOCK, most)
            },
            |at| self.may_be_vacant(&drained, at, at + BLOCK),
            |place| self.is_vacant(&drained, place),
        )
    }
}

impl<'a> Table<'a> {
    // As a call reads them.
    fn lent(&self) -> Columns<'_>
        ensures { lent_of result ≡ table_in self.now }
    {
        Columns {
            ids: self.ids,
            numbers: self.numbers,
            tats: self.tats,
            newest: self.newest,
        }
    }
}

impl<'a> SlotsMut for Table<'a> {
    type By = Gcra;

    ghost Content = { Table };

    ghost columns = { columns };

    ghost content = { λ t. table_in t };

    ghost same_loan = { λ t t'. SameLoan t t' };

    fn count(&self) -> usize {
        self.lent().count()
    }

    fn judge(&self, request: &Request) -> Ruling<Planned<Ticks>> {
        calls::judge(&self.lent(), request)
    }

    #[tactic(auto, unfolding(crate::specs::Table::records))]
    fn put(&mut self, place: usize, subscriber: u32, moment: Millis, stored: Planned<Ticks>)
        requires place_in_bounds { place < columns.slots (table_in self.old) }
        requires number_fits { stored.number < 256 }
        ensures loan { SameLoan self.old self.new }
        ensures after { table_in self.new ≡ columns.put (table_in self.old) place subscriber moment.0 stored }
    {
        self.ids[place] = subscriber;
        self.numbers[place] = stored.number as u8;
        self.tats[place] = stored.held.0;
        *self.newest = moment.0;
    }

    #[tactic(auto, unfolding(crate::specs::Table::records))]
    fn zero(&mut self) {
        columns::fill(self.ids, 0);
        columns::fill(self.numbers, 0);
        columns::fill(self.tats, 0);
        *self.newest = 0;
    }

    ghost stays_lent = { λ t. record { same_ids = refl; same_numbers = refl; same_tats = refl; same_newest = refl } };
}
