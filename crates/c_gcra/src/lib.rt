// The GCRA engine's calls for C. Any values may be passed. The names, and the columns one by one, are the C interface's: each engine has
// exports of its own.
#![tactic(auto)]

ghost use Rattle.std.specs.Prelude.{◌≡◌};
ghost use Rattle.plans.specs.Lent.{plans_in};
ghost use Rattle.plans.specs.Plans.{plans_of};
ghost use Rattle.table.specs.Request.{query_of, request_of};
ghost use Rattle.table_gcra.specs.Table.{table_of, acquire, peek, clear};
ghost use Rattle.c_answer.specs.Five.{five};

use plans::Setting;
use rate::answer::Numbers;
use table::request::{Query, Request};
use table_gcra::Table;
use table_gcra::lent::Columns;
use ticks::units::Millis;

// ask
#[unsafe(no_mangle)]
pub extern "C" fn railcadence_gcra_acquire(
    plans: &[u32],
    ids: &mut [u32],
    numbers: &mut [u8],
    tats: &mut [u64],
    newest: &mut u64,
    moment: u64,
    subscriber: u32,
    plan: u32,
    cost: u32,
    out: &mut [u64; 5],
)
    ensures out_after { out.new ≡ five (acquire (request_of (plans_of (plans_in plans.now) plan) moment subscriber cost)
        (table_of ids.old numbers.old tats.old newest.old)).answer }
    ensures table_after { table_of ids.new numbers.new tats.new newest.new
        ≡ (acquire (request_of (plans_of (plans_in plans.now) plan) moment subscriber cost)
        (table_of ids.old numbers.old tats.old newest.old)).after }
{
    let query = Query {
        setting: Setting {
            plans,
            number: plan,
        },
        moment: Millis(moment),
        subscriber,
    };
    let mut table = Table {
        ids,
        numbers,
        tats,
        newest,
    };
    let told = table.acquire(&Request { query, cost });
    *out = c_answer::five(Numbers::from(told));
}

// look
#[unsafe(no_mangle)]
pub extern "C" fn railcadence_gcra_peek(
    plans: &[u32],
    ids: &[u32],
    numbers: &[u8],
    tats: &[u64],
    newest: &u64,
    moment: u64,
    subscriber: u32,
    plan: u32,
    out: &mut [u64; 5],
)
    ensures { out.new ≡ five (peek (query_of (plans_of (plans_in plans.now) plan) moment subscriber)
        (table_of ids.now numbers.now tats.now newest.now)).answer }
{
    let query = Query {
        setting: Setting {
            plans,
            number: plan,
        },
        moment: Millis(moment),
        subscriber,
    };
    let lent = Columns {
        ids,
        numbers,
        tats,
        newest,
    };
    let told = lent.peek(&query);
    *out = c_answer::five(Numbers::from(told));
}

// clear
#[unsafe(no_mangle)]
pub extern "C" fn railcadence_gcra_clear(
    ids: &mut [u32],
    numbers: &mut [u8],
    tats: &mut [u64],
    newest: &mut u64,
    out: &mut [u64; 5],
)
    ensures out_after { out.new ≡ five (clear
        (table_of ids.old numbers.old tats.old newest.old)).answer }
    ensures table_after { table_of ids.new numbers.new tats.new newest.new ≡ (clear
        (table_of ids.old numbers.old tats.old newest.old)).after }
{
    let mut table = Table {
        ids,
        numbers,
        tats,
        newest,
    };
    let cleared = table.clear();
    *out = c_answer::five(Numbers::from(cleared));
}
