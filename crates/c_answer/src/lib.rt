// An answer's numbers in the order in which a host receives them.
#![tactic(auto)]

ghost use Rattle.std.specs.Prelude.{◌≡◌};
ghost use Rattle.c_answer.specs.Five.{five};

use rate::answer::Numbers;

// No `impl From`: it could stand in `rate` alone, and the order of the five is the C interface's, which `rate` does not know.
#[tactic(auto, unfolding(crate::specs::Five::five))]
pub fn five(numbers: Numbers) -> [u64; 5]
    ensures { result ≡ five numbers }
{
    [
        numbers.number,
        numbers.subscriber,
        numbers.left,
        numbers.reset,
        numbers.wait,
    ]
}
