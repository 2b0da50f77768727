// The walk over the frames and strays: each is searched for from the place where the one before ends.
ghost use Rattle.std.specs.Prelude.{◌≡◌, ◌-◌, length};
ghost use Rattle.std.specs.Iterator.{at_most};
ghost use Rattle.frame.specs.Pieces.{piece_past};
ghost use Rattle.frame.specs.Step.{pieces_step};

use crate::{Piece, pieces};
use base::Words;

// The frames and strays of some words, from a place on.
#[derive(Drop)]
pub struct Pieces<'a> {
    pub words: &'a [u16],
    pub sync: u16,
    pub at: Words,
}

// The place where a frame or a stray ends.
fn past(piece: Piece) -> Words
    ensures { result ≡ piece_past piece }
{
    match piece {
        Piece::Frame(_, _, past) | Piece::Stray(_, past) => past,
    }
}

impl<'a> Iterator for Pieces<'a> {
    type Item = Piece;

    ghost next_gives = { pieces_step };

    ghost remaining = { λ s. at_most (length s.words.now - s.at.0) };

    #[tactic(auto, using(crate::proofs::Ahead::past_ahead))]
    fn next(&mut self) -> Option<Piece> {
        let piece = pieces::next(self.words, self.sync, self.at)?;
        self.at = past(piece);
        Some(piece)
    }
}
