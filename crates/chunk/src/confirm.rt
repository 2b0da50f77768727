// What the header check and the search look at, in the order in which they do: room for a header, the sync word, the header word, the chunk's end.
ghost use Rattle.std.specs.Prelude.{◌≡◌, ◌+◌, ◌-◌, ◌<◌, length, get_or, drop};
ghost use Rattle.chunk.specs.Header.{image_size, health_size, legal, headed, check_at};

use crate::header::HEADER;
use crate::{Check, header};
use base::Words;
use base::size::{PACKET, PARITY, UNIT};

// the fewest words of a unit: its parity words, and one data word
pub const LEAST_UNIT: Words = Words(PARITY.0 + 1);

// The size of an image payload: whole units, of which the last may be shorter.
pub fn image_size(size: Words) -> bool
    ensures { result ≡ image_size size.0 }
{
    let last = size.0 % UNIT.0;
    last == 0 || LEAST_UNIT.0 <= last
}

// The size of a health payload: whole packets.
pub fn health_size(size: Words) -> bool
    ensures { result ≡ health_size size.0 }
{
    size.0 % PACKET.0 == 0
}

// Whether a header word is legal, by the rule of its kind alone: a size of 13 bits that meets it is no longer than a payload may be.
#[tactic(auto, using(crate::proofs::Headers::legal_empty, crate::proofs::Headers::legal_image, crate::proofs::Headers::legal_health))]
fn legal_word(header: u16) -> bool
    ensures { result ≡ legal header }
{
    let size = header::size_of(header);
    if size.0 == 0 {
        return false;
    }
    let kind = header::kind_of(header);
    if kind == 0 {
        return image_size(size);
    }
    let camera = header::camera_of(header);
    health_size(size) && camera == 0
}

// The number of places at which a header has room: every place but the last.
pub fn places(words: &[u16]) -> Words
    ensures { result.0 ≡ length words.now - 1 }
{
    Words(words.len().saturating_sub(1))
}

// Whether a legal header stands at a place: the sync word is looked at first.
#[tactic(auto, using(crate::proofs::Headers::headed_none, crate::proofs::Headers::headed_by_words))]
fn headed_at(words: &[u16], sync: u16, at: Words) -> bool
    ensures { result ≡ headed sync (drop at.0 words.now) }
{
    let place = at.0;
    place < places(words).0 && words[place] == sync && legal_word(words[place + 1])
}

// What stands at a place that has the sync word and a word after it.
#[tactic(auto, using(crate::proofs::Headers::headed_by_words, crate::proofs::Headers::check_none, crate::proofs::Headers::check_by_end))]
pub fn check_synced(words: &[u16], sync: u16, at: Words) -> Check
    requires at_in_bounds { at.0 + 1 < length words.now }
    requires at_value { get_or words.now at.0 0 ≡ sync }
    ensures { result ≡ check_at sync (drop at.0 words.now) }
{
    let place = at.0;
    let word = words[place + 1];
    if !legal_word(word) {
        return Check::NotAChunk;
    }
    let end = place + HEADER.0 + header::size_of(word).0;
    if headed_at(words, sync, Words(end)) {
        return Check::Followed;
    }
    if end == words.len() {
        return Check::AtEnd;
    }
    Check::NotAChunk
}
