// The text program's whole run: the input read piece by piece, and the answers to each piece written before the next is read, so
// that no answer is lost.
#![tactic(auto)]

ghost use Rattle.std.specs.Prelude.{◌≤◌, length};
ghost use Rattle.text_protocol.specs.Reply.{most_reply};
ghost use Rattle.text_session.specs.Store.{table_in, SameLoan};
ghost use Rattle.text_stream.specs.Running.{session_of, ending_of};
ghost use Rattle.text_io.specs.Piece.{Written};
ghost use Rattle.text_serve.specs.Serving.{Finished, account_of, Answers, Serves, SameBuffers};

pub mod buffers; // what the bytes of a run stand in
pub mod error; // why a run stops

use crate::buffers::Buffers;
use crate::error::RunError;
use std::io::{Read, Write};
use text_io::Counter;
use text_session::store::Store;
use text_stream::Stream;

// The input's end: what is said there written.
fn close<W: Write>(output: &mut Counter<W>, stream: &Stream, out: &mut [u8]) -> Result<(), RunError>
    requires { most_reply ≤ length out.old }
    ensures { Finished result
        (Written (ending_of (session_of stream.now) stream.now.line) out.new output.old.count output.new.count) ⊥ ⊥ }
{
    let end = stream.finish(out, 0);
    output.write(&out[..end])?;
    Ok(())
}

// The pieces one after the other. A proved loop has to end, and nothing says that the input does: so the turns are counted, up to
// a number that no run reaches.
fn pieces<R: Read, W: Write>(
    input: &mut Counter<R>,
    output: &mut Counter<W>,
    store: &mut Store<'_>,
    buffers: &mut Buffers<'_>,
) -> Result<(), RunError>
    ensures loan { SameLoan store.old store.new }
    ensures buffers { SameBuffers buffers.old buffers.new }
    ensures answers { Answers result
        (account_of (table_in store.old) input.old.count output.old.count)
        (account_of (table_in store.new) input.new.count output.new.count) }
{
    let mut stream = Stream::start();
    for _turn in 0..u64::MAX {
        let Some(n) = input.read(buffers.piece)? else {
            return close(output, &stream, buffers.out);
        };
        output.answer(&mut stream, &buffers.piece[..n], store, buffers.out)?;
    }
    Err(RunError::TooLong)
}

// The header, and then the answers. What is lent comes by `&mut`, with a promise that it stays lent: a struct by value that holds a `&mut`
// the check does not hand on to a call.
pub fn serve<R: Read, W: Write>(
    input: &mut Counter<R>,
    output: &mut Counter<W>,
    store: &mut Store<'_>,
    buffers: &mut Buffers<'_>,
) -> Result<(), RunError>
    ensures loan { SameLoan store.old store.new }
    ensures buffers { SameBuffers buffers.old buffers.new }
    ensures serves { Serves result
        (account_of (table_in store.old) input.old.count output.old.count)
        (account_of (table_in store.new) input.new.count output.new.count) }
{
    output.begin(buffers.out)?;
    pieces(input, output, store, buffers)
}
