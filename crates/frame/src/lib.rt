// Frames: what a frame is, whether it is complete, and going through a recording by its frames and strays.
#![tactic(auto)]

pub mod pieces;
mod shape;
pub mod walk;

ghost use Rattle.std.specs.Prelude.{◌≡◌};
ghost use Rattle.frame.specs.Shape.{starts};

use base::Words;
use chunk::{Entry, header};

// What is said of a frame: its camera, how many chunks it has, whether it is complete or cut, the words of its data, and the mark that the chunk which
// ends with the recording is one of its own chunks, or the health chunk that completes it.
#[derive(Clone, Copy)]
pub struct Description {
    pub camera: u16,
    pub chunks: usize,
    pub complete: bool,
    pub length: Words,
    pub end: bool,
}

// What comes next in a recording: a frame, complete or cut, with the place where it stands, or a stray continuation, as it is listed, each with the place
// where it ends, to go on from.
#[derive(Clone, Copy)]
pub enum Piece {
    Frame(Words, Description, Words),
    Stray(Entry, Words),
}

// Whether a chunk with this header word starts a frame.
pub fn starts(header: u16) -> bool
    ensures { result ≡ starts header }
{
    header::kind_of(header) == 0 && 1 <= header::camera_of(header)
}
