// One text made of another, part by part: definitions, what follows from them, and what a loop asks that makes a part.
#![tactic(auto)]

ghost use Rattle.std.specs.Prelude.{◌≡◌};
ghost use Rattle.parts.specs.Parts.{enough};

// A part of what is made: its end, if that has come; what is behind by then; how many bytes are taken of those at hand,
// and the place after the part's text in the buffer.
#[derive(Clone, Copy, Debug, PartialEq, Eq)]
pub struct Part<S, E> {
    pub end: Option<E>,
    pub state: S,
    pub taken: usize,
    pub place: usize,
}

// Whether the next move is settled by so many bytes at hand, and there is a byte to move on. last says that no more will come.
#[tactic(auto, unfolding(crate::specs::Parts::enough))]
pub fn is_enough(settling: usize, left: usize, last: bool) -> bool
    ensures { result ≡ enough settling left last }
{
    (settling <= left) | (last & (0 < left))
}
