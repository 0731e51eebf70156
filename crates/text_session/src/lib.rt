// How far a run of the text program has come, and what a line is told (document 01, 'The tabbed text'). Nothing is written here
// but the columns and the newest moment.
#![tactic(auto)]

ghost use Rattle.std.specs.Prelude.{◌≡◌, ◌≤◌, ◌&&◌, leb, Some, IfOk};
ghost use Rattle.text_protocol.specs.declared.command.Command.TheVariants.{Ask};
ghost use Rattle.text_session.specs.Session.{text_slots, number_of, opening, first, turn, part, back, other, answer, unended, Bounded, told_of};
ghost use Rattle.text_session.specs.Store.{table_in, SameLoan};

mod part; // the first slots of the columns, as a table
pub mod store; // the columns and the newest moment that a run is lent

use crate::store::Store;
use plans::Setting;
use rate::answer::{Numbers, Reason};
use table::request::{Query, Request};
use text_protocol::command::Command;
use text_protocol::reply;
use text_protocol::reply::UNREADABLE;
use ticks::plan::Plan;
use ticks::units::Millis;

// The most slots in the program.
pub const TEXT_SLOTS: usize = 1024;

// What a good first line opens a run with. That it has no more slots than a run is no fact of the type: the definitions and their laws
// speak of any.
#[derive(Clone, Copy)]
pub struct Opened {
    pub plan: Plan,
    pub slots: usize,
}

// Why a first line ends the run: it is no plan, or it is one that is refused.
#[derive(Clone, Copy)]
pub enum Refusal {
    NoPlan,
    Because(Reason),
}

// Before the first line; after a good one; after a bad one, which ends the run.
#[derive(Clone, Copy)]
pub enum Stage {
    First,
    Open(Opened),
    Over,
}

// What a line leads to, and what it gets: no answer, or five numbers.
#[derive(Clone, Copy)]
pub struct Turn {
    pub stage: Stage,
    pub reply: Option<Numbers>,
}

// The number that the line is answered.
impl From<Refusal> for u64 {
    ghost from_gives = { λ refusal number. number ≡ number_of refusal };

    #[tactic(auto, unfolding(crate::specs::Session::number_of))]
    fn from(refusal: Refusal) -> u64 {
        match refusal {
            Refusal::NoPlan => UNREADABLE,
            Refusal::Because(reason) => u64::from(reason),
        }
    }
}

// Whether a plan may have so many slots here: a limit of document 01's program, apart from the table's (`is_slot_count`).
fn is_text_slots(slots: usize) -> bool
    ensures { result ≡ (leb 1 slots && leb slots text_slots) }
{
    (1..=TEXT_SLOTS).contains(&slots)
}

// What the first line comes to.
#[tactic(auto, unfolding(crate::specs::Session::opening))]
fn open(command: Option<Command>) -> Result<Opened, Refusal>
    ensures opening { result ≡ opening command }
    ensures within { IfOk result (λ o. o.slots ≤ text_slots) }
{
    let Command::Plan { slots, plan } = command.ok_or(Refusal::NoPlan)? else {
        return Err(Refusal::NoPlan);
    };
    if !plan.is_ok() {
        return Err(Refusal::Because(Reason::BadPlan));
    }
    let slots = slots as usize;
    if !is_text_slots(slots) {
        return Err(Refusal::Because(Reason::BadTable));
    }
    Ok(Opened { plan, slots })
}

// The first line.
#[tactic(auto, unfolding(crate::specs::Session::first))]
fn first(command: Option<Command>, store: &mut Store<'_>) -> Turn
    ensures loan { SameLoan store.old store.new }
    ensures told { told_of result (table_in store.new) ≡ first (opening command) (table_in store.old) }
{
    match open(command) {
        Err(refusal) => Turn {
            stage: Stage::Over,
            reply: Some(reply::refusal(u64::from(refusal))),
        },
        Ok(opened) => {
            // so many slots are a table: the clear is not refused
            let _ = part::clear(
                &mut store.ids[..opened.slots],
                &mut store.numbers[..opened.slots],
                &mut store.tats[..opened.slots],
                store.newest,
            );
            Turn {
                stage: Stage::Open(opened),
                reply: None,
            }
        }
    }
}

// An ask of an open run, under its plan, which is the only one that is lent. The three numbers are those of a `Command::Ask`, a variant
// that cannot be handed on by itself.
#[tactic(auto, using(plans::proofs::Lent::lent_one), unfolding(crate::specs::Session::turn))]
fn ask(opened: Opened, moment: u64, subscriber: u32, cost: u32, store: &mut Store<'_>) -> Numbers
    requires { opened.slots ≤ text_slots }
    ensures loan { SameLoan store.old store.new }
    ensures answer { result
        ≡ (turn opened.plan (Some (Ask moment subscriber cost)) (part opened.slots (table_in store.old))).answer }
    ensures after { table_in store.new ≡ back opened.slots (table_in store.old)
        (turn opened.plan (Some (Ask moment subscriber cost)) (part opened.slots (table_in store.old))).after }
{
    let plan = opened.plan;
    let plans = [plan.limit, plan.period, plan.burst];
    let query = Query {
        setting: Setting {
            plans: &plans,
            number: 0,
        },
        moment: Millis(moment),
        subscriber,
    };
    let told = part::acquire(
        &mut store.ids[..opened.slots],
        &mut store.numbers[..opened.slots],
        &mut store.tats[..opened.slots],
        store.newest,
        &Request { query, cost },
    );
    Numbers::from(told)
}

// Any other line of an open run.
#[tactic(auto, using(crate::proofs::Columns::back_same), unfolding(crate::specs::Session::turn))]
fn other(opened: Opened, command: Option<Command>, store: &mut Store<'_>) -> Turn
    requires { opened.slots ≤ text_slots }
    ensures loan { SameLoan store.old store.new }
    ensures told { told_of result (table_in store.new) ≡ other opened command (table_in store.old) }
{
    let stage = Stage::Open(opened);
    match command {
        Some(
            Command::Ask {
                moment,
                subscriber,
                cost,
            },
        ) => Turn {
            stage,
            reply: Some(ask(opened, moment, subscriber, cost, store)),
        },
        _ => Turn {
            stage,
            reply: Some(reply::refusal(UNREADABLE)),
        },
    }
}

// A line answered.
#[tactic(auto, unfolding(crate::specs::Session::answer, crate::specs::Session::slots_of))]
pub fn answer(stage: Stage, command: Option<Command>, store: &mut Store<'_>) -> Turn
    requires bounded { Bounded stage }
    ensures loan { SameLoan store.old store.new }
    ensures told { told_of result (table_in store.new) ≡ answer stage command (table_in store.old) }
{
    match stage {
        Stage::First => first(command, store),
        Stage::Open(opened) => other(opened, command, store),
        Stage::Over => Turn {
            stage: Stage::Over,
            reply: None,
        },
    }
}

// What a last line without LF gets.
#[tactic(auto, unfolding(crate::specs::Session::unended))]
pub fn unended(stage: Stage) -> Option<Numbers>
    ensures { result ≡ unended stage }
{
    match stage {
        Stage::First | Stage::Open(_) => Some(reply::refusal(UNREADABLE)),
        Stage::Over => None,
    }
}
