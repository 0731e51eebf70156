// The input piece by piece to the output, in constant memory (document 01, 'The tabbed text'): a line is read where it stands in the
// piece and answered at its LF, and only one that goes on in the next piece is kept.
#![tactic(auto)]

ghost use Rattle.std.specs.Prelude.{◌≡◌, ◌+◌, ◌≤◌, length};
ghost use Rattle.std.proofs.lemmas.List.Edits.{sets};
ghost use Rattle.text_protocol.specs.Command.{most_line};
ghost use Rattle.text_session.specs.Session.{Bounded};
ghost use Rattle.text_session.specs.Stream.{text_of};

use rate::answer::Numbers;
use text_protocol::command::{Command, MOST_LINE};
use text_protocol::{command, reply};
use text_session::Stage;
use text_session::store::Store;
use text_tsv::bytes;
use text_tsv::bytes::LF;

// How far a run has come: its stage, and what is held of the unfinished line. No heap: the line's bytes stand in fixed memory.
#[derive(Clone, Copy)]
pub struct Stream {
    pub stage: Stage,
    pub line: [u8; MOST_LINE],
    pub held: usize,
    pub ghost bounded: { Bounded stage },
    pub ghost held_within: { held ≤ most_line },
    pub ghost line_enough: { most_line ≤ length line },
}

// Writes a reply from `at` on, and says where the next byte goes. The output and the place are no struct, as in text_protocol: each call
// would have to promise, beside what it writes, that the struct holds the same output.
#[tactic(auto, using(text_session::proofs::LineEnds::text_nothing, text_session::proofs::LineEnds::text_numbers))]
fn put(out: &mut [u8], at: usize, reply: Option<Numbers>) -> usize
    requires { at + length (text_of reply) ≤ length out.old }
    ensures { (result ≡ at + length (text_of reply)) × (out.new ≡ sets out.old at (text_of reply)) }
{
    match reply {
        None => at,
        Some(numbers) => reply::put(out, at, numbers),
    }
}

impl Stream {
    ghost use Rattle.std.specs.Prelude.{true, ◌++◌, take};
    ghost use Rattle.text_tsv.specs.Text.{lf};
    ghost use Rattle.text_protocol.specs.Command.{line_command};
    ghost use Rattle.text_session.specs.Store.{table_in, SameLoan};
    ghost use Rattle.text_session.specs.Stream.{kept, says, said, moved, after};
    ghost use Rattle.text_stream.specs.Running.{Moved, stream_state, session_of, fed_of, started, ending_of};

    // Before the first byte.
    #[tactic(auto, using(text_session::proofs::Turning::bounded_first))]
    pub fn start() -> Stream
        ensures { session_of result ≡ started }
    {
        Stream {
            stage: Stage::First,
            line: [0; MOST_LINE],
            held: 0,
        }
    }

    // Holds more bytes of the unfinished line, as many as are kept.
    #[tactic(auto, using(crate::proofs::Holding::hold_is))]
    fn hold(&mut self, more: &[u8])
        ensures line_after { take self.new.held self.new.line ≡ take most_line (take self.old.held self.old.line ++ more.now) }
        ensures same_stage { self.new.stage ≡ self.old.stage }
    {
        let count = (MOST_LINE - self.held).min(more.len());
        self.held = bytes::put(&mut self.line, self.held, &more[..count]);
    }

    // What a line says that ends with these bytes: it is read where it stands, unless it began in an earlier piece.
    #[tactic(auto, using(crate::proofs::Holding::read_here))]
    fn ended(&mut self, rest: &[u8]) -> Option<Command>
        ensures says { result
            ≡ line_command (record { bytes = take most_line (take self.old.held self.old.line ++ rest.now); ended = true }) }
        ensures same_stage { self.new.stage ≡ self.old.stage }
    {
        if self.held == 0 {
            return command::read(rest);
        }
        self.hold(rest);
        command::read(&self.line[..self.held])
    }

    // The line that ends with these bytes is answered, from `at` on; says where the next byte goes.
    fn end_line(&mut self, rest: &[u8], store: &mut Store<'_>, out: &mut [u8], at: usize) -> usize
        requires { at + length (says (kept (stream_state self.old (table_in store.old)) rest.now) lf) ≤ length out.old }
        ensures loan { SameLoan store.old store.new }
        ensures moved { Moved
            (says (kept (stream_state self.old (table_in store.old)) rest.now) lf)
            (moved (kept (stream_state self.old (table_in store.old)) rest.now) lf)
            at (fed_of self.new result) self.new.line (table_in store.new) out.old out.new }
    {
        let command = self.ended(rest);
        let turn = text_session::answer(self.stage, command, store);
        self.stage = turn.stage;
        self.held = 0;
        put(out, at, turn.reply)
    }

    // A piece of the input, answered from `at` on; says where the next byte goes.
    pub fn feed(&mut self, piece: &[u8], store: &mut Store<'_>, out: &mut [u8], at: usize) -> usize
        requires { at + length (said (stream_state self.old (table_in store.old)) piece.now) ≤ length out.old }
        ensures loan { SameLoan store.old store.new }
        ensures moved { Moved
            (said (stream_state self.old (table_in store.old)) piece.now)
            (after (stream_state self.old (table_in store.old)) piece.now)
            at (fed_of self.new result) self.new.line (table_in store.new) out.old out.new }
    {
        let mut w = at;
        for part in piece.split_inclusive(|byte| *byte == LF) {
            match part.strip_suffix(&[LF]) {
                Some(line) => w = self.end_line(line, store, out, w),
                // the rest of the piece: held last, and not in the loop, it leaves what is held in registers
                None => {
                    self.hold(part);
                    return w;
                }
            }
        }
        w
    }

    // The input's end: a last line without LF, answered from `at` on; says where the next byte goes.
    #[tactic(auto, using(text_session::proofs::LineEnds::ending_none, text_session::proofs::LineEnds::ending_some))]
    pub fn finish(&self, out: &mut [u8], at: usize) -> usize
        requires { at + length (ending_of (session_of self.now) self.now.line) ≤ length out.old }
        ensures { (result ≡ at + length (ending_of (session_of self.now) self.now.line))
            × (out.new ≡ sets out.old at (ending_of (session_of self.now) self.now.line)) }
    {
        if self.held == 0 {
            return at;
        }
        put(out, at, text_session::unended(self.stage))
    }
}
