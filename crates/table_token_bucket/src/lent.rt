// The columns that a host lends. As a call reads them: how many slots, whose they are, what stands in one, and the lowest free one
// (document 01, 'Seats'), which is empty or owes nothing by its own plan. And as it writes them.
ghost use Rattle.std.specs.Prelude.{◌≡◌, refl, true, false, ℕ, ◌≤◌, ◌<◌};
ghost use Rattle.ticks.specs.Grains.{on_clock, InForce};
ghost use Rattle.plans.specs.Lent.{plans_in};
ghost use Rattle.plans.specs.Plans.{plans_of, Lent};
ghost use Rattle.table.specs.Seen.{sight_in};
ghost use Rattle.table.specs.Slots.{carries, vacant, NoneFrom};
ghost use Rattle.table_token_bucket.specs.Table.{Table, lent_of, table_in, columns, SameLoan, rule, bucket_at, NoneFree};

use crate::Table;
use plans::loosest;
use plans::planned::Planned;
use rule_token_bucket::{Bucket, TokenBucket, planned};
use table::calls::Ruling;
use table::columns::{self, common};
use table::lent::{Slots, SlotsMut};
use table::request::{Query, Request};
use table::{blocks, calls, search};
use ticks::plan::Plan;
use ticks::units::{Millis, Ticks};

// So many slots are tested together, two by one vector instruction.
const BLOCK: usize = 8;

// The columns, beside each other as C lends them, and the newest moment.
#[derive(Clone, Copy)]
pub struct Columns<'a> {
    pub ids: &'a [u32],
    pub numbers: &'a [u8],
    pub levels: &'a [u64],
    pub lasts: &'a [u64],
    pub newest: &'a u64,
}

impl<'a> Columns<'a> {
    // The bucket in a slot.
    fn bucket_at(&self, place: usize) -> Bucket
        requires { place < columns.slots (lent_of self.now) }
        ensures { result ≡ bucket_at self.now.levels.now self.now.lasts.now place }
    {
        Bucket {
            level: Ticks(self.levels[place]),
            last: Millis(self.lasts[place]),
        }
    }

    // Whether one of the slots from one up to another may be free by the plan or by one that is no looser: if not, none is. No branch
    // is made for each.
    fn may_be_vacant(&self, plan: Plan, moment: Millis, from: usize, to: usize) -> bool
        requires to_in_bounds { to ≤ columns.slots (lent_of self.now) }
        requires in_force { InForce plan moment.0 }
        ensures { result ≡ false → NoneFrom (carries self.now.ids.now 0) from to
            × NoneFree plan moment.0 self.now.levels.now self.now.lasts.now from to }
    {
        search::may_carry(self.ids, from, to, 0)
            | blocks::may_pass(from, to, |i| {
                rule_token_bucket::may_be_free(plan, moment, self.bucket_at(i))
            })
    }

    // The same, each by its own plan.
    fn may_be_vacant_own(&self, plans: &[u32], moment: Millis, from: usize, to: usize) -> bool
        requires to_in_bounds { to ≤ columns.slots (lent_of self.now) }
        requires lent { Lent (plans_in plans.now) }
        requires moment_on_clock { on_clock moment.0 ≡ true }
        ensures { (asked : ℕ) → result ≡ false →
            NoneFrom (vacant rule columns (plans_of (plans_in plans.now) asked) moment.0 (lent_of self.now)) from to }
    {
        search::may_carry(self.ids, from, to, 0)
            | blocks::may_pass(from, to, |i| {
                planned::may_be_free(plans, moment, self.numbers[i], self.bucket_at(i))
            })
    }

    // Whether a slot is free.
    fn is_vacant(&self, plans: &[u32], moment: Millis, place: usize) -> bool
        requires { place < columns.slots (lent_of self.now) }
        ensures { (asked : ℕ) →
            result ≡ vacant rule columns (plans_of (plans_in plans.now) asked) moment.0 (lent_of self.now) place }
    {
        self.ids[place] == 0
            || planned::is_free(
                plans,
                moment,
                self.numbers[place] as u32,
                self.bucket_at(place),
            )
    }
}

impl<'a> Slots for Columns<'a> {
    type By = TokenBucket;

    ghost sight = { λ c. sight_in columns (lent_of c) };

    #[tactic(auto, unfolding(crate::specs::Table::records))]
    fn count(&self) -> usize {
        let levels = common(self.ids.len(), self.levels.len());
        let records = common(levels, self.lasts.len());
        common(records, self.numbers.len())
    }

    #[tactic(auto, unfolding(crate::specs::Table::records))]
    fn newest(&self) -> Millis {
        Millis(*self.newest)
    }

    fn find(&self, subscriber: u32) -> Option<usize> {
        search::find(self.ids, subscriber)
    }

    fn row(&self, place: usize) -> Planned<Bucket> {
        Planned {
            number: self.numbers[place] as u32,
            held: self.bucket_at(place),
        }
    }

    // Blocks in which none may be free are passed over whole: as far as it goes by one plan that is looser than each, and then each slot
    // by its own.
    fn lowest_free(&self, query: &Query) -> Option<usize> {
        let plans = query.setting.plans;
        let moment = query.moment;
        let loosest = loosest::loosest(plans);
        blocks::lowest::<BLOCK, _, _, _>(
            self.count(),
            |at| self.may_be_vacant(loosest, moment, at, at + BLOCK),
            |at| self.may_be_vacant_own(plans, moment, at, at + BLOCK),
            |place| self.is_vacant(plans, moment, place),
        )
    }
}

impl<'a> Table<'a> {
    // As a call reads them.
    fn lent(&self) -> Columns<'_>
        ensures { lent_of result ≡ table_in self.now }
    {
        Columns {
            ids: self.ids,
            numbers: self.numbers,
            levels: self.levels,
            lasts: self.lasts,
            newest: self.newest,
        }
    }
}

impl<'a> SlotsMut for Table<'a> {
    type By = TokenBucket;

    ghost Content = { Table };

    ghost columns = { columns };

    ghost content = { λ t. table_in t };

    ghost same_loan = { λ t t'. SameLoan t t' };

    fn count(&self) -> usize {
        self.lent().count()
    }

    fn judge(&self, request: &Request) -> Ruling<Planned<Bucket>> {
        calls::judge(&self.lent(), request)
    }

    #[tactic(auto, unfolding(crate::specs::Table::records))]
    fn put(&mut self, place: usize, subscriber: u32, moment: Millis, stored: Planned<Bucket>)
        requires place_in_bounds { place < columns.slots (table_in self.old) }
        requires number_fits { stored.number < 256 }
        ensures loan { SameLoan self.old self.new }
        ensures after { table_in self.new ≡ columns.put (table_in self.old) place subscriber moment.0 stored }
    {
        let bucket = stored.held;
        self.ids[place] = subscriber;
        self.numbers[place] = stored.number as u8;
        self.levels[place] = bucket.level.0;
        self.lasts[place] = bucket.last.0;
        *self.newest = moment.0;
    }

    #[tactic(auto, unfolding(crate::specs::Table::records))]
    fn zero(&mut self) {
        columns::fill(self.ids, 0);
        columns::fill(self.numbers, 0);
        columns::fill(self.levels, 0);
        columns::fill(self.lasts, 0);
        *self.newest = 0;
    }

    ghost stays_lent = { λ t. record { same_ids = refl; same_numbers = refl; same_levels = refl; same_lasts = refl; same_newest = refl } };
}
