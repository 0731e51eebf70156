// What a line says (document 01, 'The tabbed text'): `plan`, seats, limit, period, burst; or `ask`, moment, subscriber, cost.
ghost use Rattle.std.specs.Prelude.{◌≡◌, true};
ghost use Rattle.text_tsv.specs.Fields.{fields_at, taken_as, take_number};
ghost use Rattle.text_protocol.specs.Command.{most32, ask_of, plan_of, command, line_command};

use text_tsv::field::Reader;
use ticks::plan::Plan;

// The longest line that can be read, with its LF.
pub const MOST_LINE: usize = 128;

const MOST_32: u64 = u32::MAX as u64;

#[derive(Clone, Copy)]
pub enum Command {
    Plan {
        slots: u32,
        plan: Plan,
    },
    Ask {
        moment: u64,
        subscriber: u32,
        cost: u32,
    },
}

// The next field, as a number of 32 bits.
#[tactic(auto, using(crate::proofs::Reading::number_within))]
fn small(fields: &mut Reader) -> Option<u32>
    ensures { taken_as result (fields_at fields.new.text.now fields.new.at)
        ≡ take_number most32 (fields_at fields.old.text.now fields.old.at) }
{
    Some(fields.number(MOST_32)? as u32)
}

// The fields after `ask`.
#[tactic(auto, using(crate::proofs::Reading::by_fields_of_ask))]
fn ask(mut fields: Reader) -> Option<Command>
    ensures { result ≡ ask_of (fields_at fields.entry.text.now fields.entry.at) }
{
    let moment = fields.number(u64::MAX)?;
    let subscriber = small(&mut fields)?;
    let cost = small(&mut fields)?;
    if fields.next().is_some() {
        return None;
    }
    Some(Command::Ask {
        moment,
        subscriber,
        cost,
    })
}

// The fields after `plan`.
#[tactic(auto, using(crate::proofs::Reading::by_fields_of_plan))]
fn plan(mut fields: Reader) -> Option<Command>
    ensures { result ≡ plan_of (fields_at fields.entry.text.now fields.entry.at) }
{
    let slots = small(&mut fields)?;
    let limit = small(&mut fields)?;
    let period = small(&mut fields)?;
    let burst = small(&mut fields)?;
    if fields.next().is_some() {
        return None;
    }
    Some(Command::Plan {
        slots,
        plan: Plan {
            limit,
            period,
            burst,
        },
    })
}

// The bytes of a line, by its first word.
#[tactic(auto, using(crate::proofs::Reading::by_word))]
fn worded(line: &[u8]) -> Option<Command>
    ensures { result ≡ command line.now }
{
    let mut fields = Reader::over(line);
    let word = fields.next()?;
    if word == b"ask".as_slice() {
        return ask(fields);
    }
    if word == b"plan".as_slice() {
        return plan(fields);
    }
    None
}

// What a line says that ended, without its LF; or nothing, as one that is too long.
#[tactic(auto, using(crate::proofs::Reading::by_length))]
pub fn read(line: &[u8]) -> Option<Command>
    ensures { result ≡ line_command (record { bytes = line.now; ended = true }) }
{
    if MOST_LINE <= line.len() {
        return None;
    }
    worded(line)
}
