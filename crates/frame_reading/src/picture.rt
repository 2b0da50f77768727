// The picture of a frame: its units judged, and their data joined, chunk by chunk in one pass each. A frame's chunks stand end to end, so their header
// words tell where they are.
ghost use Rattle.std.specs.Prelude.{◌≡◌, false, ◌≤◌, length, slice_index, take, drop};
ghost use Rattle.base_room.specs.Room.{put};
ghost use Rattle.chunk.specs.Header.{header_width, size, span};
ghost use Rattle.parity_units.specs.Split.{units_in, given_data, data_words};
ghost use Rattle.parity_units.specs.Replies.{join_reply, join_room, any_touched, harm_to};
ghost use Rattle.frame_reading.specs.Along.{words_along, units_along};

use base::Words;
use chunk::header;
use chunk::header::HEADER;
use parity_units::Harm;

// The payload of the chunk at the front of these words, and the words after it.
fn first_payload(words: &[u16]) -> (&[u16], &[u16])
    requires { span (slice_index words.now 1) ≤ length words.now }
    ensures payload { result.0.now ≡ take (size (slice_index words.now 1)) (drop header_width words.now) }
    ensures rest { result.1.now ≡ drop (span (slice_index words.now 1)) words.now }
{
    words[HEADER.0..].split_at(header::size_of(words[1]).0)
}

// What is found of the units of the first chunks of these words. Here and in `data` the chunks are counted: a frame's are known to stand end to end, and
// `search::chunks` would search for each once more.
pub fn inspect(words: &[u16], chunks: usize) -> Harm
    requires { words_along chunks words.now ≤ length words.now }
    ensures { result ≡ harm_to (units_along chunks words.now) }
{
    let mut rest = words;
    let mut damaged = false;
    let mut touched = false;
    for _ in 0..chunks {
        let (payload, after) = first_payload(rest);
        let harm = parity_units::inspect(payload);
        damaged |= harm.damaged;
        touched |= harm.touched;
        rest = after;
    }
    Harm { damaged, touched }
}

// The data of a payload to a place of the room, as `join` gives them: where none of them are touched they are copied, and no parity is taken again.
fn give(payload: &[u16], touched: bool, room: &mut [u16], place: Words) -> Words
    requires { touched ≡ false → any_touched (units_in payload.now) ≡ false }
    ensures result_value { result.0 ≡ join_reply payload.now place.0 (length room.old) }
    ensures room_after { room.new ≡ join_room payload.now place.0 room.old }
{
    if touched {
        return parity_units::join(payload, room, place);
    }
    parity_units::copy(payload, room, place)
}

// The data of the first chunks of these words to the room.
pub fn data(words: &[u16], chunks: usize, touched: bool, room: &mut [u16])
    requires words_in_bounds { words_along chunks words.now ≤ length words.now }
    requires words_in_bounds_2 { data_words (units_along chunks words.now) ≤ length room.old }
    requires words_value { touched ≡ false → any_touched (units_along chunks words.now) ≡ false }
    ensures { room.new ≡ put (given_data (units_along chunks words.now)) 0 room.old }
{
    let mut rest = words;
    let mut place = 0;
    for _ in 0..chunks {
        let (payload, after) = first_payload(rest);
        place += give(payload, touched, room, Words(place)).0;
        rest = after;
    }
}
