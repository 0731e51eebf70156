// The program: tabbed text from standard input to standard output, by the GCRA engine, in constant memory (document 01, 'The
// tabbed text'). It writes, after each read, what the rules say of the bytes that it got.
//
// Not proved of the text program is, first, that a read of standard input hands it over in its order and says 0 at its end, and
// that what is handed to standard output is written there. Second, what `text_io`'s `Counter::read` and `Counter::write`, which
// alone read and write, hand on and make of the answers, but for the number of bytes, and that `main` calls `serve`, once, and
// tells of a failure: these few lines are to be read. Third, which bytes a whole run reads and writes: that is proved of each
// piece, and of the run only how many they are, modulo 2^64, as many as there are in an input that leaves the table as the run
// does, and in its transcript. Fourth, anything of a run in which a write failed.
#![tactic(auto)]

mod buffers; // what it works in

use text_io::Counter;
use text_serve::buffers::Buffers;
use text_serve::error::RunError;
use text_session::store::Store;

fn main(rt: HostRuntime) {
    // the columns, of as many slots as a plan may ask for
    let mut ids: [u32; 1024] = buffers::filled(0);
    let mut numbers: [u8; 1024] = buffers::filled(0);
    let mut tats: [u64; 1024] = buffers::filled(0);
    let mut newest = 0;
    let mut store = Store {
        ids: &mut ids,
        numbers: &mut numbers,
        tats: &mut tats,
        newest: &mut newest,
    };
    // a piece of the input, and the answers to it: each of its 4,096 bytes may end a line, and a line's answer has at most 105 bytes
    let mut piece: [u8; 4096] = buffers::filled(0);
    let mut out: [u8; 430080] = buffers::filled(0);
    let mut buffers = Buffers {
        piece: &mut piece,
        out: &mut out,
    };
    // how many bytes are read and written is counted, and `serve` makes its promise of that
    let mut input = Counter::new(rt.stdin());
    let mut output = Counter::new(rt.stdout());
    let run = text_serve::serve(&mut input, &mut output, &mut store, &mut buffers);
    // what standard error does not take is not told
    let _ = match run {
        Ok(()) | Err(RunError::TooLong) => Ok(()),
        Err(error) => eprintln!(rt; "railcadence: standard {error}"),
    };
}
