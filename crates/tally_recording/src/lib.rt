// The tally of one recording: thirty numbers.
#![tactic(auto)]

mod chunks;
mod pieces;

ghost use Rattle.std.specs.Prelude.{◌≡◌};
ghost use Rattle.tally_recording.specs.Tally.{empty_tally};
ghost use Rattle.tally_recording.specs.Replies.{refused, of_reply};

use base::{limit, refusal};
use chunks::Listed;
use pieces::Framed;

// Recordings, their words, the skipped ones among these; listed chunks (image of camera 0 to 3, health); frames, complete and cut, and strays; sound packets
// of type 1 to 15; units sound, with a parity bit hit, repaired, and not repairable.
#[derive(Clone, Copy)]
pub struct Tally {
    pub recordings: u32,
    pub words: u32,
    pub skipped: u32,
    pub chunks: [u32; 5],
    pub complete: u32,
    pub cut: u32,
    pub strays: u32,
    pub packets: [u32; 15],
    pub units: [u32; 4],
}

// The tally with a recording, or the number of a refusal with zeros: `Demand1` says so of this answer, so it is no Result.
#[derive(Clone, Copy)]
pub struct Counted {
    pub refusal: u8,
    pub tally: Tally,
}

// The tally of no recording.
pub fn empty() -> Tally
    ensures { result ≡ empty_tally }
{
    Tally {
        recordings: 0,
        words: 0,
        skipped: 0,
        chunks: [0; 5],
        complete: 0,
        cut: 0,
        strays: 0,
        packets: [0; 15],
        units: [0; 4],
    }
}

fn refused(number: u8) -> Counted
    ensures { result ≡ refused number }
{
    Counted {
        refusal: number,
        tally: empty(),
    }
}

// The numbers of one recording. `as` narrows how many words it has: within the limit they fit, which is proved.
#[tactic(auto, using(crate::proofs::Answers::of_refused, crate::proofs::Answers::of_taken, crate::proofs::Bound::short))]
pub fn of(recording: &[u16], sync: u16) -> Counted
    ensures { result ≡ of_reply sync recording.now }
{
    if limit::too_long(recording) {
        return refused(refusal::LENGTH);
    }
    let Listed {
        skipped,
        chunks,
        packets,
        units,
    } = chunks::count(recording, sync);
    let Framed {
        complete,
        cut,
        strays,
    } = pieces::count(recording, sync);
    let tally = Tally {
        recordings: 1,
        words: recording.len() as u32,
        skipped,
        chunks,
        complete,
        cut,
        strays,
        packets,
        units,
    };
    Counted { refusal: 0, tally }
}
