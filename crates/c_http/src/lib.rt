// What an HTTP response says of an answer, for C. Any values may be passed.
#![tactic(auto)]

ghost use Rattle.std.specs.Prelude.{◌≡◌};
ghost use Rattle.http_fields.specs.Fields.{fields_of};
ghost use Rattle.c_answer.specs.Five.{plan_of};
ghost use Rattle.c_http.specs.Told.{numbers_in, told};

use http_fields::Fields;
use rate::answer::Numbers;
use ticks::plan::Plan;
use ticks::units::Millis;

// The fields in the order in which a host receives them: it is the C interface's, which `http_fields` does not know.
fn told(fields: Fields) -> [u64; 5]
    ensures { result ≡ told fields }
{
    [
        fields.quota,
        fields.window,
        fields.remaining,
        fields.reset,
        fields.retry_after,
    ]
}

#[unsafe(no_mangle)]
pub extern "C" fn railcadence_http_fields(
    limit: u32,
    period: u32,
    burst: u32,
    moment: u64,
    answer: &[u64; 5],
    out: &mut [u64; 5],
)
    ensures { out.new ≡ told (fields_of (plan_of limit period burst) moment (numbers_in answer.now)) }
{
    let plan = Plan {
        limit,
        period,
        burst,
    };
    // read in the order in which the C interface hands them out, as `c_answer` puts them
    let numbers = Numbers {
        number: answer[0],
        subscriber: answer[1],
        left: answer[2],
        reset: answer[3],
        wait: answer[4],
    };
    *out = told(http_fields::header_fields(plan, Millis(moment), numbers));
}
