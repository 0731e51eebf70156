// One line for each thing that is tried: a word and tabbed numbers. What cannot be written is missing there, and nothing else tells of it.
use rate::answer::{Answer, Numbers, Outcome, Reason};
use rate::retry;
use std::fmt;
use ticks::plan::Plan;
use ticks::round;
use ticks::units::Millis;

// The five numbers of an answer.
#[derive(Clone, Copy)]
struct Five(Numbers);

impl fmt::Display for Five {
    fn fmt<W: fmt::Write>(&self, f: &mut fmt::Formatter<W>) -> fmt::Result {
        let Numbers {
            number,
            subscriber,
            left,
            reset,
            wait,
        } = self.0;
        write!(f, "{number}\t{subscriber}\t{left}\t{reset}\t{wait}")
    }
}

// limit, period, burst: 1 if within the limits, or 0
pub fn plan(rt: &impl Print, limit: u32, period: u32, burst: u32) {
    let plan = Plan {
        limit,
        period,
        burst,
    };
    let ok = plan.is_ok() as u8;
    let _ = println!(rt; "plan\t{limit}\t{period}\t{burst}\t{ok}");
}

// moment: 1 if within the limit, or 0
pub fn moment(rt: &impl Print, at: u64) {
    let ok = Millis(at).is_on_clock() as u8;
    let _ = println!(rt; "moment\t{at}\t{ok}");
}

// which reason, counted from 0 in the order of the checks, and subscriber: the five numbers of the refusal
pub fn refused(rt: &impl Print, place: u64, reason: Reason, subscriber: u32) {
    let answer = Answer {
        subscriber,
        outcome: Outcome::Refused(reason),
    };
    let five = Five(Numbers::from(answer));
    let _ = println!(rt; "refused\t{place}\t{subscriber}\t{five}");
}

// 0 for a clear that was done, 1 for a table that was refused: the five numbers
pub fn cleared(rt: &impl Print, place: u64, answer: Result<(), Reason>) {
    let five = Five(Numbers::from(answer));
    let _ = println!(rt; "cleared\t{place}\t{five}");
}

// moment, wait: the five numbers for subscriber 7, with 1 left and reset at 2 if the wait is told
pub fn wait(rt: &impl Print, now: u64, wait: u64) {
    let told = retry::retry_from(Millis(now), Millis(wait));
    let answer = Answer {
        subscriber: 7,
        outcome: retry::denied(told, 1, Millis(2)),
    };
    let five = Five(Numbers::from(answer));
    let _ = println!(rt; "wait\t{now}\t{wait}\t{five}");
}

// dividend, divisor: quotient rounded up
pub fn div_up(rt: &impl Print, a: u64, d: u64) {
    let quotient = round::div_up(a, d);
    let _ = println!(rt; "div_up\t{a}\t{d}\t{quotient}");
}
