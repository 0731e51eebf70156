// The GCRA engine (document 01's paced engine) over columns that a host lends: `ids` holds the subscribers' numbers, 0 in
// an empty slot, `numbers` the numbers of their plans, and `tats` the TATs, in ticks of these; beside them `newest`, the newest
// moment at which anything was admitted. Any values may be lent, damaged tables too, and any may be asked.
//
//   acquire   decides, and spends if it admits (document 01's ask)
//   peek      reports, and spends nothing (look)
//   clear     makes every column all zeros, and the newest moment 0
//
// Only an acquire that is admitted writes, and only in the subscriber's own slot and the newest moment.
#![tactic(auto)]

ghost use Rattle.std.specs.Prelude.{◌≡◌};
ghost use Rattle.rate.specs.Answer.{numbers_of, cleared_numbers};
ghost use Rattle.table.specs.Lent.{asked_of, asks_of};
ghost use Rattle.table_gcra.specs.Table.{lent_of, table_in, acquire, peek, clear, SameLoan};

use crate::lent::Columns;
use rate::answer::{Answer, Reason};
use table::calls;
use table::request::{Query, Request};

pub mod lent; // the columns as a call reads and writes them, and the lowest free slot

// The columns and the newest moment, lent to be written.
#[derive(Drop)]
pub struct Table<'a> {
    pub ids: &'a mut [u32],
    pub numbers: &'a mut [u8],
    pub tats: &'a mut [u64],
    pub newest: &'a mut u64,
}

impl<'a> Columns<'a> {
    // What the subscriber has left at the moment, and when it has everything again. Without a slot the bucket is full.
    pub fn peek(&self, query: &Query) -> Answer
        ensures { numbers_of result ≡ (peek (asked_of query.now) (lent_of self.now)).answer }
    {
        calls::peek(self, query)
    }
}

impl<'a> Table<'a> {
    // Whether the subscriber gets the cost at the moment. If so it is spent.
    pub fn acquire(&mut self, request: &Request) -> Answer
        ensures loan { SameLoan self.old self.new }
        ensures answer { numbers_of result ≡ (acquire (asks_of request.now) (table_in self.old)).answer }
        ensures table_after { table_in self.new ≡ (acquire (asks_of request.now) (table_in self.old)).after }
    {
        calls::acquire(self, request)
    }

    // Makes every column all zeros and the newest moment 0, if the columns are a table.
    pub fn clear(&mut self) -> Result<(), Reason>
        ensures loan { SameLoan self.old self.new }
        ensures answer { cleared_numbers result ≡ (clear (table_in self.old)).answer }
        ensures table_after { table_in self.new ≡ (clear (table_in self.old)).after }
    {
        calls::clear(self)
    }
}
