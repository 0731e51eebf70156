// The output: its header, and an answer's line, the five numbers in the order of the header (document 01, 'The tabbed text').
ghost use Rattle.std.specs.Prelude.{◌≡◌, ◌+◌, ◌≤◌, length};
ghost use Rattle.std.proofs.lemmas.List.Edits.{sets};
ghost use Rattle.text_protocol.specs.Reply.{header, line, refusal};

use rate::answer::Numbers;
use text_tsv::bytes::{LF, TAB};
use text_tsv::{bytes, decimal};

// The number of a line that cannot be read.
pub const UNREADABLE: u64 = 10;

// The header is this long, and an answer's line no longer than this.
pub const HEADER: usize = 35;

pub const MOST_REPLY: usize = 105;

// A number and four zeros: of any number, as the clause says.
#[tactic(auto, using(rate::proofs::Answers::answered_bare))]
pub fn refusal(number: u64) -> Numbers
    ensures { result ≡ refusal number }
{
    Numbers::bare(number, 0)
}

// Writes an answer's line from `at` on, and says where the next byte goes. No loop over the fields: the last alone ends with LF.
// The output and the place are no struct: each call would have to promise, beside what it writes, that the struct holds the same output.
// Nor is the rest of the output lent, `&mut out[at..]`, and a count handed back: the next call would need the sum of the counts all the same.
#[tactic(auto, using(crate::proofs::Putting::by_cells), unfolding(crate::specs::Reply::line))]
pub fn put(out: &mut [u8], at: usize, numbers: Numbers) -> usize
    requires { at + length (line numbers) ≤ length out.old }
    ensures { (result ≡ at + length (line numbers)) × (out.new ≡ sets out.old at (line numbers)) }
{
    let at = decimal::put(out, at, numbers.number, TAB);
    let at = decimal::put(out, at, numbers.subscriber, TAB);
    let at = decimal::put(out, at, numbers.left, TAB);
    let at = decimal::put(out, at, numbers.reset, TAB);
    decimal::put(out, at, numbers.wait, LF)
}

// Writes the header.
#[tactic(auto, unfolding(crate::specs::Reply::header))]
pub fn put_header(out: &mut [u8]) -> usize
    requires { length header ≤ length out.old }
    ensures { (result ≡ length header) × (out.new ≡ sets out.old 0 header) }
{
    bytes::put(out, 0, b"outcome\tsubscriber\tleft\treset\twait\n")
}
