// What the bytes of a run stand in, lent for its time: a piece of the input, and the answers to it. There is room for the answers
// to a piece each of whose bytes ends a line.
ghost use Rattle.text_io.specs.Piece.{Ample};

#[derive(Drop)]
pub struct Buffers<'a> {
    pub piece: &'a mut [u8],
    pub out: &'a mut [u8],
    pub ghost ample: { Ample piece.now out.now },
}
