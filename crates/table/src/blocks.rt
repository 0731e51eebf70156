// The search for the lowest place that passes a test, with blocks of places that it passes over whole (document 01, 'Seats'). What a place
// or a block is tested for is the caller's: the search is the same for a subscriber's slot and for a free one of any rule.
ghost use Rattle.std.specs.Prelude.{◌≡◌, ℕ, Bool, false, ◌+◌, ◌≤◌, ◌<◌, min};
ghost use Rattle.table.specs.Slots.{seek, NoneFrom, NoneBelow};

// So many slots are compared together, with no branch between them: the compiler makes vector instructions of that.
pub const BLOCK: usize = 32;

// Whether one of the places from one up to another may pass, as a test says of each: if not, none does. No branch is made for each.
pub fn may_pass<F: Fn(usize) -> bool>(from: usize, to: usize, may: F) -> bool
    requires { (i : ℕ) → from ≤ i → i < to → F.pre may i }
    ensures { (test : ℕ → Bool) → ((i : ℕ) → from ≤ i → i < to → F.post may i false → test i ≡ false) →
        result ≡ false → NoneFrom test from to }
{
    let mut any = false;
    for i in from..to {
        any = any | may(i);
    }
    any
}

// The place from a given one on up to which nothing passes, by whole blocks: a test says of the block that begins at a place whether
// one of it may.
pub fn skip_blocks<const SIZE: usize, F: Fn(usize) -> bool>(
    slots: usize,
    from: usize,
    may: F,
) -> usize
    requires from_in_bounds { from ≤ slots }
    requires size_some { 1 ≤ SIZE }
    requires callable { (at : ℕ) → from ≤ at → at + SIZE ≤ slots → F.pre may at }
    ensures in_range { (from ≤ result) × (result ≤ slots) }
    ensures none_from { (test : ℕ → Bool) →
        ((at : ℕ) → from ≤ at → at + SIZE ≤ slots → F.post may at false → NoneFrom test at (at + SIZE)) →
        NoneFrom test from result }
{
    // no `for` by steps: the place where this stops is the answer
    let mut at = from;
    while SIZE <= slots - at && !may(at) {
        at += SIZE;
    }
    at
}

// The lowest place before one that passes a test, where none before another does: place by place.
pub fn first_between<F: Fn(usize) -> bool>(from: usize, to: usize, passes: F) -> Option<usize>
    requires { (i : ℕ) → from ≤ i → i < to → F.pre passes i }
    ensures { (test : ℕ → Bool) → ((i : ℕ) (b : Bool) → from ≤ i → i < to → F.post passes i b → b ≡ test i) →
        NoneBelow test from → result ≡ seek test to }
{
    for i in from..to {
        if passes(i) {
            return Some(i);
        }
    }
    None
}

// Where what is tested place by place ends that begins at a place: a block of ids further on, whatever is passed over at once, or at
// the last slot.
pub fn block_end(from: usize, slots: usize) -> usize
    requires { from ≤ slots }
    ensures { result ≡ min (from + 32) slots }
{
    from.saturating_add(BLOCK).min(slots)
}

// The lowest place that passes a test. Blocks in which none may pass are passed over whole: as far as it goes by a quick test of blocks,
// and then by a closer one; what is left of a block is tested place by place.
pub fn lowest<const SIZE: usize, Q: Fn(usize) -> bool, C: Fn(usize) -> bool, P: Fn(usize) -> bool>(
    slots: usize,
    quick: Q,
    closer: C,
    passes: P,
) -> Option<usize>
    requires size_some { 1 ≤ SIZE }
    requires quick_callable { (at : ℕ) → at + SIZE ≤ slots → Q.pre quick at }
    requires closer_callable { (at : ℕ) → at + SIZE ≤ slots → C.pre closer at }
    requires passes_callable { (i : ℕ) → i < slots → P.pre passes i }
    ensures { (test : ℕ → Bool) →
        ((at : ℕ) → at + SIZE ≤ slots → Q.post quick at false → NoneFrom test at (at + SIZE)) →
        ((at : ℕ) → at + SIZE ≤ slots → C.post closer at false → NoneFrom test at (at + SIZE)) →
        ((i : ℕ) (b : Bool) → i < slots → P.post passes i b → b ≡ test i) →
        result ≡ seek test slots }
{
    // no `for`: a block that is searched begins wherever those passed over end
    let mut at = 0;
    loop {
        let beyond = skip_blocks::<SIZE, _>(slots, at, &quick);
        let from = skip_blocks::<SIZE, _>(slots, beyond, &closer);
        let end = block_end(from, slots);
        if let Some(lowest) = first_between(from, end, &passes) {
            break Some(lowest);
        }
        if slots <= end {
            break None;
        }
        at = end;
    }
}
