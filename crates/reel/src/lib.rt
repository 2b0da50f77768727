// A reel: a recording with its index and a trailer, as it is stored. Its layout, and its reader.
#![tactic(auto)]

mod index;
pub mod layout;
mod trailer;

ghost use Rattle.std.specs.Prelude.{◌≡◌};
ghost use Rattle.reel.specs.Reading.{refused, read_reply};

use base::{Words, limit, refusal};

// What the reader answers: the words of the recording, and the number of entries. A refusal has its number and zeros: `Demand1` says so of this answer, so it
// is no Result.
#[derive(Clone, Copy)]
pub struct Reel {
    pub refusal: u8,
    pub n: Words,
    pub entries: usize,
}

fn refused(number: u8) -> Reel
    ensures { result ≡ refused number }
{
    Reel {
        refusal: number,
        n: Words(0),
        entries: 0,
    }
}

// Reads a reel: it is accepted where its trailer tells the truth and its entries are those of a fresh reading.
#[tactic(auto, using(crate::proofs::Reading::reader))]
pub fn read(reel: &[u16], sync: u16) -> Reel
    ensures { result ≡ read_reply sync reel.now }
{
    let Some(trailer) = trailer::trailer_of(reel) else {
        return refused(refusal::LENGTH);
    };
    let length = reel.len();
    if layout::MOST.0 < length {
        return refused(refusal::LENGTH);
    }
    if !trailer::agrees(reel, trailer) {
        return refused(refusal::REEL);
    }
    let n = usize::from(trailer.n);
    if limit::REEL_RECORDING.0 < n {
        return refused(refusal::REEL);
    }
    let end = length - layout::TRAILER.0;
    if !index::agrees(&reel[..n], sync, &reel[n..end]) {
        return refused(refusal::REEL);
    }
    Reel {
        refusal: 0,
        n: Words(n),
        entries: usize::from(trailer.count),
    }
}
