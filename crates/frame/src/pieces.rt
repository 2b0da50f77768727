// Going through a recording, a frame or a stray at a time.
ghost use Rattle.std.specs.Prelude.{◌≡◌, true, drop};
ghost use Rattle.frame.specs.Walk.{starts_frame};
ghost use Rattle.frame.specs.Pieces.{frame_there, next_piece};

use crate::walk::Pieces;
use crate::{Description, Piece, shape};
use base::Words;
use chunk::header;
use chunk::walk::Chunks;

// The frame that starts at a place, and the place where it ends. Its chunks stand end to end, so one of them ends with the recording where the frame does.
#[tactic(auto, using(crate::proofs::Walking::reach_inside, crate::proofs::Walking::reach_fits))]
fn frame_there(words: &[u16], sync: u16, place: Words) -> Piece
    requires { starts_frame sync (drop place.0 words.now) ≡ true }
    ensures { result ≡ frame_there sync words.now place.0 }
{
    let at = place.0;
    let from = &words[at..];
    let reach = shape::measure(from, sync);
    let end = reach.end.0;
    let length = reach.length;
    let camera = header::camera_of(from[1]);
    let closing = shape::closes(&from[end..], sync, camera);
    let own = end == from.len();
    let description = Description {
        camera,
        chunks: reach.chunks,
        complete: header::is_chunk(closing),
        length,
        end: own || header::is_at_end(closing),
    };
    let past = at + end;
    Piece::Frame(place, description, Words(past))
}

// The next frame or stray of the reading that begins at a place: health chunks are passed. Going on from the place where it ends, a program goes
// through a whole recording in one pass.
#[tactic(auto, using(crate::proofs::Stepping::none_here, crate::proofs::Stepping::walks_on, crate::proofs::Stepping::health_here))]
pub fn next(words: &[u16], sync: u16, from: Words) -> Option<Piece>
    ensures { result ≡ next_piece sync words.now from.0 }
{
    let chunks = Chunks {
        words,
        sync,
        at: from,
    };
    for (entry, past) in chunks {
        if header::kind_of(entry.header) == 0 {
            if crate::starts(entry.header) {
                return Some(frame_there(words, sync, entry.position));
            }
            return Some(Piece::Stray(entry, past));
        }
    }
    None
}

// Every frame and every stray, in order of position.
pub fn pieces(words: &[u16], sync: u16) -> Pieces<'_>
    ensures words { result.words.now ≡ words.now }
    ensures sync { result.sync ≡ sync }
    ensures at { result.at.0 ≡ 0 }
{
    Pieces {
        words,
        sync,
        at: Words(0),
    }
}
