// A number in decimal digits, without sign or leading zero (document 01, 'The tabbed text').
ghost use Rattle.std.specs.Prelude.{◌≡◌, [], ◌∷◌, ◌+◌, ◌/◌, ◌%◌, ◌<◌, ◌≤◌, length, Some};
ghost use Rattle.std.proofs.lemmas.List.Edits.{sets};
ghost use Rattle.text_tsv.specs.Decimal.{appended, onwards, decimal, digit, digits, cell};

// One more digit after a value. A tenth of the most is the same for each digit, and is reckoned once for a number.
#[tactic(auto, unfolding(crate::specs::Decimal::appended, crate::specs::Decimal::is_digit))]
fn appended(most: u64, value: u64, byte: u8) -> Option<u64>
    ensures { result ≡ appended most value byte }
{
    if !byte.is_ascii_digit() {
        return None;
    }
    let digit = (byte - b'0') as u64;
    if most / 10 < value {
        return None;
    }
    let tens = 10 * value;
    if most - tens < digit {
        return None;
    }
    Some(tens + digit)
}

// The digits as a number, after a first digit that is not 0.
#[tactic(auto, using(crate::proofs::Reading::by_next_digit))]
fn value(text: &[u8], most: u64) -> Option<u64>
    ensures { result ≡ onwards most (Some 0) text.now }
{
    let mut value = 0;
    for byte in text {
        value = appended(most, value, *byte)?;
    }
    Some(value)
}

// A field as a number that is at most `most`.
#[tactic(auto, using(crate::proofs::Reading::by_first_byte))]
pub fn read(text: &[u8], most: u64) -> Option<u64>
    ensures { result ≡ decimal most text.now }
{
    match text {
        [] => None,
        [b'0'] => Some(0),
        [b'0', ..] => None,
        _ => value(text, most),
    }
}

// Writes the two digits of a number below 100, also where the first is 0.
fn put_pair(out: &mut [u8], at: usize, pair: u64)
    requires pair_bound { pair < 100 }
    requires at_in_bounds { at + 2 ≤ length out.old }
    ensures { out.new ≡ sets out.old at (digit (pair / 10) ∷ digit (pair % 10) ∷ []) }
{
    out[at] = b'0' + (pair / 10) as u8;
    out[at + 1] = b'0' + (pair % 10) as u8;
}

// Writes a number below 100, and says where the next byte goes.
#[tactic(auto, using(crate::proofs::Digits::by_size))]
fn put_short(out: &mut [u8], at: usize, n: u64) -> usize
    requires n_bound { n < 100 }
    requires n_in_bounds { at + length (digits n) ≤ length out.old }
    ensures { (result ≡ at + length (digits n)) × (out.new ≡ sets out.old at (digits n)) }
{
    if n < 10 {
        out[at] = b'0' + n as u8;
        return at + 1;
    }
    put_pair(out, at, n);
    at + 2
}

// Writes a number from `at` on, its last two digits first, and says where the next byte goes. By hand, since `put` cannot fail, has no
// heap, and says which bytes it writes: std's formatting answers a Result, or in fixed memory, `InlineText`, promises the digits or
// a text that was cut; and an answer's line took four times as long with it. How many pairs there are shows as the number runs out.
#[tactic(auto, using(crate::proofs::Writing::by_two))]
fn put_digits(out: &mut [u8], at: usize, n: u64) -> usize
    requires { at + length (digits n) ≤ length out.old }
    ensures { (result ≡ at + length (digits n)) × (out.new ≡ sets out.old at (digits n)) }
{
    // most numbers of an answer are short, and need no logarithm
    if n < 100 {
        return put_short(out, at, n);
    }
    let end = at + n.ilog10() as usize + 1;
    let mut rest = n;
    let mut place = end;
    while 100 <= rest {
        place -= 2;
        put_pair(out, place, rest % 100);
        rest /= 100;
    }
    put_short(out, at, rest);
    end
}

// Writes a number and the byte that ends its field, and says where the next byte goes.
#[tactic(auto, using(crate::proofs::Writing::by_end), unfolding(crate::specs::Decimal::cell))]
pub fn put(out: &mut [u8], at: usize, n: u64, end: u8) -> usize
    requires { at + length (cell n end) ≤ length out.old }
    ensures { (result ≡ at + length (cell n end)) × (out.new ≡ sets out.old at (cell n end)) }
{
    let next = put_digits(out, at, n);
    out[next] = end;
    next + 1
}
