// The frames and strays of a recording, counted.
ghost use Rattle.std.specs.Prelude.{◌≡◌, false};
ghost use Rattle.base.specs.Limit.{too_long};
ghost use Rattle.tally_recording.specs.Walk.{framed_of};

use frame::{Piece, pieces};

// What is counted of the frames and strays.
#[derive(Clone, Copy)]
pub struct Framed {
    pub complete: u32,
    pub cut: u32,
    pub strays: u32,
}

// The frames and strays of a recording within the limit.
pub fn count(words: &[u16], sync: u16) -> Framed
    requires { too_long words.now ≡ false }
    ensures { result ≡ framed_of sync words.now }
{
    let mut complete: u32 = 0;
    let mut cut: u32 = 0;
    let mut strays: u32 = 0;
    for piece in pieces::pieces(words, sync) {
        match piece {
            Piece::Frame(_, described, _) => {
                complete += u32::from(described.complete);
                cut += u32::from(!described.complete);
            }
            Piece::Stray(..) => strays += 1,
        }
    }
    Framed {
        complete,
        cut,
        strays,
    }
}
