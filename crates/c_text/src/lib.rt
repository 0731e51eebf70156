// A whole tabbed text for C (document 01, 'The tabbed text'). Any values may be passed.
#![tactic(auto)]

ghost use Rattle.std.specs.Prelude.{◌≡◌};
ghost use Rattle.table_gcra.specs.Table.{table_of};
ghost use Rattle.text_transcript.specs.Whole.{transcribed, lent_of};
ghost use Rattle.c_text.specs.Text.{two};

use text_transcript::TooShort;

// The result and how many bytes were written: the C interface's numbers, which `text_transcript` does not know.
#[tactic(auto, unfolding(crate::specs::Text::two))]
fn two(transcribed: Result<usize, TooShort>) -> [u64; 2]
    ensures { result ≡ two transcribed }
{
    match transcribed {
        Ok(bytes) => [0, bytes as u64],
        Err(TooShort::Columns) => [1, 0],
        Err(TooShort::Output) => [2, 0],
    }
}

#[unsafe(no_mangle)]
pub extern "C" fn railcadence_transcribe(
    text: &[u8],
    ids: &mut [u32],
    numbers: &mut [u8],
    tats: &mut [u64],
    newest: &mut u64,
    out: &mut [u8],
    res: &mut [u64; 2],
)
    ensures res_after { res.new ≡ two
        (transcribed text.now
        (table_of ids.old numbers.old tats.old newest.old) out.old).answer }
    ensures out_after { lent_of (table_of ids.new numbers.new tats.new newest.new) out.new
        ≡ (transcribed text.now
        (table_of ids.old numbers.old tats.old newest.old) out.old).left }
{
    let transcribed = text_transcript::transcribe(text, ids, numbers, tats, newest, out);
    *res = two(transcribed);
}
