// The first slots of the columns that a run is lent, as a table. They come one by one: the check does not follow what is written to a part
// of a slice through a struct that holds the part.
ghost use Rattle.std.specs.Prelude.{◌≡◌};
ghost use Rattle.rate.specs.Answer.{numbers_of, cleared_numbers};
ghost use Rattle.table.specs.Lent.{asks_of};
ghost use Rattle.table_gcra.specs.Table.{table_of, acquire, clear};

use rate::answer::{Answer, Reason};
use table::request::Request;
use table_gcra::Table;

// An ask.
pub fn acquire(
    ids: &mut [u32],
    numbers: &mut [u8],
    tats: &mut [u64],
    newest: &mut u64,
    request: &Request,
) -> Answer
    ensures answer { numbers_of result ≡ (acquire (asks_of request.now) (table_of ids.old numbers.old tats.old newest.old)).answer }
    ensures table_after { table_of ids.new numbers.new tats.new newest.new
        ≡ (acquire (asks_of request.now) (table_of ids.old numbers.old tats.old newest.old)).after }
{
    let mut table = Table {
        ids,
        numbers,
        tats,
        newest,
    };
    table.acquire(request)
}

// All zeros, if they are a table.
pub fn clear(
    ids: &mut [u32],
    numbers: &mut [u8],
    tats: &mut [u64],
    newest: &mut u64,
) -> Result<(), Reason>
    ensures answer { cleared_numbers result ≡ (clear (table_of ids.old numbers.old tats.old newest.old)).answer }
    ensures table_after { table_of ids.new numbers.new tats.new newest.new ≡ (clear (table_of ids.old numbers.old tats.old newest.old)).after }
{
    let mut table = Table {
        ids,
        numbers,
        tats,
        newest,
    };
    table.clear()
}
