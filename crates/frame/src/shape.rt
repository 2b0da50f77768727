// The shape of a frame, walked from its first word on: every place here counts from there.
ghost use Rattle.std.specs.Prelude.{◌≡◌, true};
ghost use Rattle.chunk.specs.Header.{confirmed};
ghost use Rattle.frame.specs.Walk.{starts_frame, joins_frame, closes_frame, reach_of};

use base::Words;
use base::size::UNIT;
use chunk::header::HEADER;
use chunk::{Check, header};
use health::packet;

// How far a frame reaches: its chunks, its words and its data words.
#[derive(Clone, Copy)]
pub struct Reach {
    pub chunks: usize,
    pub end: Words,
    pub length: Words,
}

fn confirmed(words: &[u16], sync: u16) -> bool
    ensures { result ≡ confirmed sync words.now }
{
    header::is_chunk(header::check(words, sync, Words(0)))
}

// Whether a continuation stands at the front of these words.
fn joins(words: &[u16], sync: u16) -> bool
    ensures { result ≡ joins_frame sync words.now }
{
    let word = base_room::at(words, 1);
    confirmed(words, sync) && header::kind_of(word) == 0 && header::camera_of(word) == 0
}

// The chunks of the frame at the front of these words: a chunk that is no multiple of a whole unit is its last. It stops at the first place where no chunk
// joins; a walk over the listed chunks would pass it.
pub fn measure(words: &[u16], sync: u16) -> Reach
    requires { starts_frame sync words.now ≡ true }
    ensures { result ≡ reach_of sync words.now }
{
    let mut size = header::size_of(words[1]).0;
    let mut chunks = 1;
    let mut end = HEADER.0 + size;
    let mut length = parity_units::data_words(Words(size)).0;
    while size % UNIT.0 == 0 && joins(&words[end..], sync) {
        size = header::size_of(words[end + 1]).0;
        chunks += 1;
        end += HEADER.0 + size;
        length += parity_units::data_words(Words(size)).0;
    }
    Reach {
        chunks,
        end: Words(end),
        length: Words(length),
    }
}

// What the header check answers of a health chunk at the front of these words whose first packet is sound and of the camera's type; where none stands
// there nothing closes the frame. The type is looked at first.
pub fn closes(words: &[u16], sync: u16, camera: u16) -> Check
    ensures { result ≡ closes_frame sync words.now camera }
{
    let health = header::kind_of(base_room::at(words, 1)) == 1;
    let observed = u32::from(base_room::at(words, HEADER.0)) == 3 + u32::from(camera);
    if health && observed && packet::sound_at(words, HEADER) {
        header::check(words, sync, Words(0))
    } else {
        Check::NotAChunk
    }
}
