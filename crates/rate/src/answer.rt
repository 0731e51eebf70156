// The answers (document 01, 'When the gate says no'): an answer names the subscriber and carries exactly one outcome.
ghost use Rattle.std.specs.Prelude.{◌≡◌};
ghost use Rattle.rate.specs.Answer.{reason_number, verdict_of, answered, numbers_of, cleared_numbers};
ghost use Rattle.rate.specs.Decision.{bare};

use ticks::units::Millis;

// Why a request is refused, in the order of the checks.
#[derive(Clone, Copy)]
pub enum Reason {
    BadPlan,
    BadTable,
    LateMoment,
    EarlyMoment,
    NoSubscriber,
    ZeroCost,
    CostAboveBurst,
    CorruptRecord,
    OtherPlan,
    NotOnClock,
    TableFull,
}

#[derive(Clone, Copy)]
pub enum Outcome {
    Admitted {
        remaining: u32,
        reset_at: Millis,
    },
    Throttled {
        remaining: u32,
        reset_at: Millis,
        retry_after: Millis,
    },
    Refused(Reason),
}

#[derive(Clone, Copy)]
pub struct Answer {
    pub subscriber: u32,
    pub outcome: Outcome,
}

// Document 01's five numbers of an answer, in the order of its output.
#[derive(Clone, Copy)]
pub struct Numbers {
    pub number: u64,
    pub subscriber: u64,
    pub left: u64,
    pub reset: u64,
    pub wait: u64,
}

// The number of a refusal.
impl From<Reason> for u64 {
    ghost from_gives = { λ reason number. number ≡ reason_number reason };

    #[tactic(auto, unfolding(crate::specs::Answer::reason_number))]
    fn from(reason: Reason) -> u64 {
        match reason {
            Reason::BadPlan => 1,
            Reason::BadTable => 2,
            Reason::LateMoment => 3,
            Reason::EarlyMoment => 11,
            Reason::NoSubscriber => 4,
            Reason::ZeroCost => 5,
            Reason::CostAboveBurst => 6,
            Reason::CorruptRecord => 7,
            Reason::OtherPlan => 12,
            Reason::NotOnClock => 13,
            Reason::TableFull => 9,
        }
    }
}

impl Numbers {
    // A number with zeros beside it.
    #[tactic(auto, unfolding(crate::specs::Answer::answered, crate::specs::Decision::bare))]
    pub fn bare(number: u64, subscriber: u64) -> Numbers
        ensures { result ≡ answered subscriber (bare number) }
    {
        Numbers {
            number,
            subscriber,
            left: 0,
            reset: 0,
            wait: 0,
        }
    }
}

// The five numbers of an answer.
impl From<Answer> for Numbers {
    ghost from_gives = { λ answer numbers. numbers ≡ numbers_of answer };

    #[tactic(auto, unfolding(crate::specs::Answer::numbers_of, crate::specs::Answer::answered, crate::specs::Answer::verdict_of, crate::specs::Decision::bare))]
    fn from(answer: Answer) -> Numbers {
        let subscriber = answer.subscriber as u64;
        let outcome = answer.outcome;
        match outcome {
            Outcome::Admitted {
                remaining,
                reset_at,
            } => Numbers {
                number: 0,
                subscriber,
                left: remaining as u64,
                reset: reset_at.0,
                wait: 0,
            },
            Outcome::Throttled {
                remaining,
                reset_at,
                retry_after,
            } => Numbers {
                number: 8,
                subscriber,
                left: remaining as u64,
                reset: reset_at.0,
                wait: retry_after.0,
            },
            Outcome::Refused(reason) => Numbers::bare(u64::from(reason), subscriber),
        }
    }
}

// The five numbers of a clear's answer: it was done, or it is refused.
impl From<Result<(), Reason>> for Numbers {
    ghost from_gives = { λ cleared numbers. numbers ≡ cleared_numbers cleared };

    #[tactic(auto, unfolding(crate::specs::Answer::cleared_numbers))]
    fn from(cleared: Result<(), Reason>) -> Numbers {
        match cleared {
            Ok(()) => Numbers::bare(0, 0),
            Err(reason) => Numbers::bare(u64::from(reason), 0),
        }
    }
}
