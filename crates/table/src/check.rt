// Checks 1 to 6 (document 01, 'When the gate says no') and number 11 just after 3 (document 02, Item 6), in their order: the
// first that applies answers.
ghost use Rattle.std.specs.Prelude.{◌≡◌};
ghost use Rattle.table.specs.Checks.{slots_ok, query_check, request_check, check_number};
ghost use Rattle.table.specs.Lent.{gate_in, toll_in};

use rate::answer::Reason;
use ticks::units::Millis;

// The most slots of a table; the least is 1.
pub const MOST_SLOTS: usize = 65535;

// What the checks before the cost's look at. `ok` says whether what is lent beside the columns is within its limits; unequal columns
// count as 0 slots.
#[derive(Clone, Copy)]
pub struct Gate {
    pub ok: bool,
    pub slots: usize,
    pub newest: Millis,
    pub moment: Millis,
    pub subscriber: u32,
}

// What all of them look at: that, the most that a cost may be, and the cost.
#[derive(Clone, Copy)]
pub struct Toll {
    pub gate: Gate,
    pub most: u32,
    pub cost: u32,
}

// Whether a table may have so many slots (check 2): document 02's limit, apart from the program's.
#[tactic(auto, unfolding(crate::specs::Checks::slots_ok))]
pub fn is_slot_count(slots: usize) -> bool
    ensures { result ≡ slots_ok slots }
{
    (1..=MOST_SLOTS).contains(&slots)
}

// Checks 1, 2, 3, 11 and 4, for a peek.
#[tactic(auto, unfolding(crate::specs::Checks::check_number, crate::specs::Checks::query_check), using(rate::proofs::Answers::bad_plan, rate::proofs::Answers::bad_table, rate::proofs::Answers::late_moment, rate::proofs::Answers::early_moment, rate::proofs::Answers::no_subscriber))]
pub fn query(gate: Gate) -> Result<(), Reason>
    ensures { check_number result ≡ query_check (gate_in gate) }
{
    if !gate.ok {
        return Err(Reason::BadPlan);
    }
    if !is_slot_count(gate.slots) {
        return Err(Reason::BadTable);
    }
    if !gate.moment.is_on_clock() {
        return Err(Reason::LateMoment);
    }
    if gate.moment < gate.newest {
        return Err(Reason::EarlyMoment);
    }
    if gate.subscriber == 0 {
        return Err(Reason::NoSubscriber);
    }
    Ok(())
}

// All checks, for an acquire.
pub fn request(toll: Toll) -> Result<(), Reason>
    ensures { check_number result ≡ request_check (toll_in toll) }
{
    query(toll.gate)?;
    if toll.cost == 0 {
        return Err(Reason::ZeroCost);
    }
    if toll.most < toll.cost {
        return Err(Reason::CostAboveBurst);
    }
    Ok(())
}
