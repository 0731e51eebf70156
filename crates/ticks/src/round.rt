// Division, rounded up.
ghost use Rattle.std.specs.Prelude.{◌≡◌};
ghost use Rattle.ticks.specs.Grains.{div_up};

// a / d rounded up, for every a and d; by 0 it is 0. The library's `div_ceil` takes a remainder beside the quotient: document 02, Item 4,
// asks for a single division and no remainder.
pub fn div_up(a: u64, d: u64) -> u64
    ensures { result ≡ div_up a d }
{
    if d == 0 {
        return 0;
    }
    if a == 0 {
        return 0;
    }
    (a - 1) / d + 1
}
