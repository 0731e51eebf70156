// A whole input text to the whole output text, over a table and an output that a host lends (document 01, 'The tabbed text').
#![tactic(auto)]

ghost use Rattle.std.specs.Prelude.{◌≡◌, ◌≤◌, length};
ghost use Rattle.std.proofs.lemmas.List.Edits.{sets};
ghost use Rattle.table_gcra.specs.Table.{table_of};
ghost use Rattle.text_session.specs.Store.{table_in, SameLoan};
ghost use Rattle.text_session.specs.Stream.{endings, after, start};
ghost use Rattle.text_session.specs.Transcript.{transcript};
ghost use Rattle.text_transcript.specs.Whole.{room, transcribed, lent_of};

use text_protocol::reply;
use text_protocol::reply::{HEADER, MOST_REPLY};
use text_session::TEXT_SLOTS;
use text_session::store::Store;
use text_stream::Stream;
use text_tsv::bytes::LF;

// Why nothing was written: a column has fewer than 1,024 slots, or the output is shorter than the header and a longest line for
// each line of the text and one more.
#[derive(Clone, Copy, Debug, PartialEq, Eq)]
pub enum TooShort {
    Columns,
    Output,
}

// How many lines of a text end. No branch is made for a byte, as `filter` and `count` make, so that the compiler counts several at once;
// and it stays apart, since within its caller the loop came to end where a processor takes half as long again for it.
#[inline(never)]
fn endings(text: &[u8]) -> usize
    ensures { result ≡ endings text.now }
{
    let mut count = 0;
    for byte in text {
        count += (*byte == LF) as usize;
    }
    count
}

// The whole run over an output that is large enough.
fn run(text: &[u8], store: &mut Store<'_>, out: &mut [u8]) -> usize
    requires { room text.now ≤ length out.old }
    ensures loan { SameLoan store.old store.new }
    ensures written { (result ≡ length (transcript text.now))
        × (out.new ≡ sets out.old 0 (transcript text.now)) }
    ensures table_after { table_in store.new ≡ (after (start (table_in store.old)) text.now).table }
{
    let mut stream = Stream::start();
    let at = reply::put_header(out);
    let at = stream.feed(text, store, out, at);
    stream.finish(out, at)
}

// Writes the transcript, and says how many bytes it has. It takes slices and builds the store itself, since C lends columns of any length.
pub fn transcribe(
    text: &[u8],
    ids: &mut [u32],
    numbers: &mut [u8],
    tats: &mut [u64],
    newest: &mut u64,
    out: &mut [u8],
) -> Result<usize, TooShort>
    ensures answer { result ≡ (transcribed text.now
        (table_of ids.old numbers.old tats.old newest.old) out.old).answer }
    ensures left { lent_of (table_of ids.new numbers.new tats.new newest.new) out.new
        ≡ (transcribed text.now
        (table_of ids.old numbers.old tats.old newest.old) out.old).left }
{
    let slots = ids.len().min(numbers.len()).min(tats.len());
    if slots < TEXT_SLOTS {
        return Err(TooShort::Columns);
    }
    if out.len() < HEADER + MOST_REPLY {
        return Err(TooShort::Output);
    }
    if (out.len() - (HEADER + MOST_REPLY)) / MOST_REPLY < endings(text) {
        return Err(TooShort::Output);
    }
    let mut store = Store {
        ids,
        numbers,
        tats,
        newest,
    };
    Ok(run(text, &mut store, out))
}
