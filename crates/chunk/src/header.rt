// The header: its two words, its fields, and the check of what stands at a place.
ghost use Rattle.std.specs.Prelude.{◌≡◌, drop};
ghost use Rattle.chunk.specs.Header.{size, camera, kind, legal_size, check_at, is_chunk, is_at_end};

use crate::{Check, confirm};
use base::Words;

// the words of the header
pub const HEADER: Words = Words(2);

// the shortest chunk: its header, and a unit with one data word
pub const SHORTEST: Words = Words(HEADER.0 + confirm::LEAST_UNIT.0);

// the longest payload
const LONGEST: Words = Words(8190);

// The words after the header.
pub fn size_of(header: u16) -> Words
    ensures { result.0 ≡ size header }
{
    Words(usize::from(header % 8192))
}

// 1 to 3, or 0 for none: a number like the kind, and passed on to the same calls
pub fn camera_of(header: u16) -> u16
    ensures { result ≡ camera header }
{
    header / 8192 % 4
}

// 0 image, 1 health: a number and no enum, since `legal_size` and `write_chunk` answer of any number of a kind
pub fn kind_of(header: u16) -> u16
    ensures { result ≡ kind header }
{
    header / 32768 % 2
}

// Whether a chunk of the kind may have a payload of this size.
#[tactic(auto, unfolding(crate::specs::Header::legal_size))]
pub fn legal_size(kind: u16, size: Words) -> bool
    ensures { result ≡ legal_size kind size.0 }
{
    let of_kind = if kind == 0 {
        confirm::image_size(size)
    } else {
        confirm::health_size(size)
    };
    (1..=LONGEST.0).contains(&size.0) && of_kind
}

// What stands at a place: a chunk has a legal header, and its end has one too or is the recording's.
#[tactic(auto, using(crate::proofs::Headers::headed_none, crate::proofs::Headers::headed_by_words, crate::proofs::Headers::check_none))]
pub fn check(words: &[u16], sync: u16, at: Words) -> Check
    ensures { result ≡ check_at sync (drop at.0 words.now) }
{
    let place = at.0;
    if confirm::places(words).0 <= place || words[place] != sync {
        return Check::NotAChunk;
    }
    confirm::check_synced(words, sync, at)
}

// Whether the check found a chunk, of either sort.
pub fn is_chunk(check: Check) -> bool
    ensures { result ≡ is_chunk check }
{
    matches!(check, Check::Followed | Check::AtEnd)
}

// Whether it found one that ends with the recording.
pub fn is_at_end(check: Check) -> bool
    ensures { result ≡ is_at_end check }
{
    matches!(check, Check::AtEnd)
}
