// The trailer of a reel that is read.
ghost use Rattle.std.specs.Prelude.{◌≡◌, Some};
ghost use Rattle.reel.specs.Reading.{trailer_agrees};
ghost use Rattle.reel.specs.Within.{trailer_of};

use crate::layout;

// What the trailer's four words say: the entries, the words of the recording before them, the CRC and the edition.
#[derive(Clone, Copy)]
pub struct Trailer {
    pub count: u16,
    pub n: u16,
    pub crc: u16,
    pub edition: u16,
}

// The trailer of a reel; none where the words are too few for one.
#[tactic(auto, using(crate::proofs::trailer::Agreeing::found))]
pub fn trailer_of(reel: &[u16]) -> Option<Trailer>
    ensures { result ≡ trailer_of reel.now }
{
    let &[.., count, n, crc, edition] = reel else {
        return None;
    };
    Some(Trailer {
        count,
        n,
        crc,
        edition,
    })
}

// Whether length and trailer agree.
#[tactic(auto, using(crate::proofs::trailer::Agreeing::tests))]
pub fn agrees(reel: &[u16], trailer: Trailer) -> bool
    requires { Some trailer ≡ trailer_of reel.now }
    ensures { result ≡ trailer_agrees reel.now }
{
    let n = usize::from(trailer.n);
    let end = n + layout::ENTRY.0 * usize::from(trailer.count);
    if end + layout::TRAILER.0 != reel.len() {
        return false;
    }
    if trailer.edition != layout::EDITION {
        return false;
    }
    let covered = end + 2;
    trailer.crc == crc::words(crc::START, &reel[n..covered])
}
