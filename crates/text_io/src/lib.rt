// The input read and the output written, a piece at a time: the header, and what is said of a piece.
#![tactic(auto)]

ghost use Rattle.std.specs.Prelude.{◌≡◌, ◌*◌, ◌≤◌, length, OnOk};
ghost use Rattle.text_session.specs.Store.{table_in, SameLoan};
ghost use Rattle.text_stream.specs.Running.{stream_state, session_of};
ghost use Rattle.text_protocol.specs.Reply.{header, most_reply};
ghost use Rattle.text_io.specs.Piece.{Counted, Took, Written, Onwards};

use std::io::{Read, Write};
use text_protocol::reply;
use text_session::store::Store;
use text_stream::Stream;

// The input cannot be read.
#[derive(Clone, Copy, Debug, PartialEq, Eq)]
pub struct Unread;

// What is said cannot be written.
#[derive(Clone, Copy, Debug, PartialEq, Eq)]
pub struct Unwritten;

// A reader or a writer, and how many bytes went through it, modulo 2^64, so that the promises can speak of it.
#[derive(Drop)]
pub struct Counter<T> {
    pub inner: T,
    pub count: u64,
}

impl<T> Counter<T> {
    // Before the first byte.
    pub fn new(inner: T) -> Counter<T>
        ensures inner { result.inner ≡ inner }
        ensures none { result.count ≡ 0 }
    {
        Counter { inner, count: 0 }
    }
}

impl<R: Read> Counter<R> {
    // Reads a piece and counts its bytes: so many stand at its start, or the input has ended. `let .. else` drops the library's error, as
    // `map_err(|_| Unread)?` would by a closure.
    #[tactic(auto, unfolding(crate::specs::Piece::Took))]
    pub fn read(&mut self, piece: &mut [u8]) -> Result<Option<usize>, Unread>
        ensures { Took result piece.new self.old.count self.new.count }
    {
        let Ok(n) = self.inner.read(piece) else {
            return Err(Unread);
        };
        self.count = self.count.wrapping_add(n as u64);
        if 0 < n {
            return Ok(Some(n));
        }
        Ok(None)
    }
}

impl<W: Write> Counter<W> {
    // Writes the bytes and counts them.
    pub fn write(&mut self, bytes: &[u8]) -> Result<(), Unwritten>
        ensures { OnOk result (Counted self.old.count (length bytes.now) self.new.count) }
    {
        if self.inner.write_all(bytes).is_err() {
            return Err(Unwritten);
        }
        self.count = self.count.wrapping_add(bytes.len() as u64);
        Ok(())
    }

    // The header written.
    pub fn begin(&mut self, out: &mut [u8]) -> Result<(), Unwritten>
        requires { length header ≤ length out.old }
        ensures { OnOk result (Written header out.new self.old.count self.new.count) }
    {
        let end = reply::put_header(out);
        self.write(&out[..end])
    }

    // A piece answered: fed to the stream, and what is said of it written.
    pub fn answer(
        &mut self,
        stream: &mut Stream,
        piece: &[u8],
        store: &mut Store<'_>,
        out: &mut [u8],
    ) -> Result<(), Unwritten>
        requires { most_reply * length piece.now ≤ length out.old }
        ensures loan { SameLoan store.old store.new }
        ensures onwards { Onwards result (session_of stream.new) (stream_state stream.old (table_in store.old)) piece.now
            stream.new.line (table_in store.new) out.new self.old.count self.new.count }
    {
        let said = stream.feed(piece, store, out, 0);
        self.write(&out[..said])
    }
}
