// Bytes of a text: where the next of a kind stands, and bytes written to an output.
ghost use Rattle.std.specs.Prelude.{◌≡◌, ◌+◌, ◌≤◌, length, drop};
ghost use Rattle.std.proofs.lemmas.List.Edits.{sets};
ghost use Rattle.text_tsv.specs.Text.{up_to};

pub const LF: u8 = 10;

pub const TAB: u8 = 9;

// The first place, from `at` on, of the byte; or the text's end, which ends a field too, and which the clause names.
pub fn find(text: &[u8], at: usize, byte: u8) -> usize
    requires { at ≤ length text.now }
    ensures { result ≡ at + length (up_to byte (drop at text.now)) }
{
    match text[at..].iter().position(|b| *b == byte) {
        Some(before) => at + before,
        None => text.len(),
    }
}

// Writes the bytes from `at` on, and says where the next one goes. The output and the place are no struct, as in text_protocol.
#[tactic(auto, using(crate::proofs::Scanning::copied))]
pub fn put(out: &mut [u8], at: usize, bytes: &[u8]) -> usize
    requires { at + length bytes.now ≤ length out.old }
    ensures { (result ≡ at + length bytes.now) × (out.new ≡ sets out.old at bytes.now) }
{
    let end = at + bytes.len();
    out[at..end].copy_from_slice(bytes);
    end
}
