// A program's input: the words that its bytes are.
#![tactic(auto)]

ghost use Rattle.std.specs.Prelude.{◌≡◌, ◌+◌, ◌*◌, length, ltb};
ghost use Rattle.program_input.specs.Input.{words_reply, words_room};

use base::{Bytes, Words, Written, limit, number, refusal};

// the sync word, and a recording at the limit
pub const WORDS: Words = Words(1 + limit::LISTING_RECORDING.0);

// room for these, and one byte more by which a longer input shows. There is no heap, so programs have rooms of a fixed size, and hand on what is used as a slice
pub const ROOM: Bytes = Bytes(2 * WORDS.0 + 1);

// Whether bytes are more than a sync word and `most` words. No sum of `most`: it may be the largest number.
fn too_many(bytes: Bytes, most: Words) -> bool
    ensures { result ≡ ltb (2 * (1 + most.0)) bytes.0 }
{
    most.0 < bytes.0.saturating_sub(1) / 2
}

// The reply for so many bytes.
#[tactic(auto, unfolding(crate::specs::Input::words_reply))]
fn plan(bytes: Bytes, most: Words, room: Words) -> Written
    ensures { result ≡ words_reply bytes.0 most.0 room.0 }
{
    let n = bytes.0;
    let wrong = n % 2 == 1 || n == 0 || too_many(bytes, most);
    let no_room = room.0 < n / 2;
    refusal::settle(
        refusal::cause(
            refusal::LENGTH,
            wrong,
            refusal::cause(refusal::ROOM, no_room, 0),
        ),
        Words(n / 2),
    )
}

// The sync word and a recording of at most so many words, from bytes with the high one of each word first. By place, as in `base_room::put`.
pub fn words(bytes: &[u8], most: Words, room: &mut [u16]) -> Written
    ensures value { result ≡ words_reply (length bytes.now) most.0 (length room.old) }
    ensures room_after { room.new ≡ words_room bytes.now most.0 room.old }
{
    let reply = plan(Bytes(bytes.len()), most, Words(room.len()));
    if reply.refusal != 0 {
        return reply;
    }
    let (pairs, _) = bytes.as_chunks::<2>();
    for (i, pair) in pairs.iter().enumerate() {
        room[i] = number::word(pair[0], pair[1]);
    }
    reply
}
