// What the program works in. The `ensures` gives the length alone: no proof looks at the zeros.
ghost use Rattle.std.specs.Prelude.{◌≡◌, length};

// So many of a value.
pub fn filled<T: Copy, const N: usize>(value: T) -> [T; N]
    ensures { N ≡ length result }
{
    [value; N]
}
