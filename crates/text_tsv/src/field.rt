// A line, read from field to field by a reader that stands at a place in it.
// The place of the field after the last is beyond the line's end.
ghost use Rattle.std.specs.Prelude.{◌≡◌, drop};
ghost use Rattle.std.specs.Iterator.{YieldsFirstRef, item_count};
ghost use Rattle.text_tsv.specs.Fields.{fields_at, take_number, taken_as};

use crate::bytes::TAB;
use crate::{bytes, decimal};

// A lent text, and the place in it where the next field begins. Its items are the fields from there on. In place of std's `split` it keeps
// both, since `moved` puts it at any place, also one beyond the text's end.
#[derive(Clone, Copy)]
pub struct Reader<'a> {
    text: &'a [u8],
    at: usize,
}

impl<'a> Reader<'a> {
    // A reader at the start of a text.
    pub fn over(text: &'a [u8]) -> Reader<'a>
        ensures { (result.text ≡ text.entry) × (result.at ≡ 0) }
    {
        Reader { text, at: 0 }
    }

    // The reader at another place of its text. Beyond the text's end there is no field.
    pub fn moved(self, at: usize) -> Reader<'a>
        ensures { (result.text ≡ self.entry.text) × (result.at ≡ at) }
    {
        Reader {
            text: self.text,
            at,
        }
    }

    // The place of the next field; beyond the text's end after the last.
    pub fn place(&self) -> usize
        ensures { result ≡ self.now.at }
    {
        self.at
    }

    // The next field, up to its tab or the text's end. The reader stands at the field after it then, over the same text.
    #[tactic(auto, using(crate::proofs::Splitting::by_place))]
    fn take(&mut self) -> Option<&'a [u8]>
        ensures gives { YieldsFirstRef (λ s. fields_at s.text.now s.at) self.old result self.new }
        ensures same_text { self.new.text ≡ self.old.text }
    {
        let text = self.text;
        let at = self.at;
        if text.len() < at {
            return None;
        }
        let end = bytes::find(text, at, TAB);
        *self = self.moved(end + 1);
        Some(&text[at..end])
    }

    // The number in the next field. The reader stands at the field after it then, whether it is a number or not. The number in the field
    // at a place of a line is `Reader::over(line).moved(at).number(most)`, and the place of the field after it the reader's `place` then.
    #[tactic(auto, using(crate::proofs::Fields::by_first))]
    pub fn number(&mut self, most: u64) -> Option<u64>
        ensures number { taken_as result (fields_at self.new.text.now self.new.at)
            ≡ take_number most (fields_at self.old.text.now self.old.at) }
        ensures left { fields_at self.new.text.now self.new.at ≡ drop 1 (fields_at self.old.text.now self.old.at) }
        ensures same_text { self.new.text ≡ self.old.text }
    {
        decimal::read(self.take()?, most)
    }
}

impl<'a> Iterator for Reader<'a> {
    type Item = &'a [u8];

    ghost next_gives = { YieldsFirstRef (λ s. fields_at s.text.now s.at) };

    ghost remaining = { item_count (λ s. fields_at s.text.now s.at) };

    fn next(&mut self) -> Option<&'a [u8]> {
        self.take()
    }
}
