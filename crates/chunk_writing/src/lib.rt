// The writer of one chunk.
#![tactic(auto)]

ghost use Rattle.std.specs.Prelude.{◌≡◌, ◌≤◌, length};
ghost use Rattle.chunk_writing.specs.Writing.{writable, header_word, write_reply, write_room};

use base::{Words, Written, refusal};
use chunk::header;

// Any number may be passed for a kind or a camera, and one that is none is refused: so they are no enums.
fn is_writable(kind: u16, camera: u16) -> bool
    ensures { result ≡ writable kind camera }
{
    match kind {
        0 => camera <= 3,
        1 => camera == 0,
        _ => false,
    }
}

// The reply, for a payload and a room of these many words.
fn plan(kind: u16, camera: u16, payload: &[u16], lent: Words) -> Written
    ensures { result ≡ write_reply kind camera (length payload.now) lent.0 }
{
    let size = payload.len();
    let length = size + header::HEADER.0;
    let verdict = refusal::cause(
        refusal::ARGUMENT,
        !is_writable(kind, camera),
        refusal::cause(
            refusal::LENGTH,
            !header::legal_size(kind, Words(size)),
            refusal::cause(refusal::ROOM, lent.0 < length, 0),
        ),
    );
    refusal::settle(verdict, Words(length))
}

fn header_word(kind: u16, camera: u16, size: u16) -> u16
    requires { (kind ≤ 1) × (camera ≤ 3) × (size ≤ 8190) }
    ensures { result ≡ header_word kind camera size }
{
    kind * 32768 + camera * 8192 + size
}

// A chunk, written to the front of the room.
#[tactic(auto, using(crate::proofs::Wrote::refused_untouched, crate::proofs::Wrote::accepted_bounds, crate::proofs::Wrote::accepted_stored))]
pub fn write_chunk(sync: u16, kind: u16, camera: u16, payload: &[u16], room: &mut [u16]) -> Written
    ensures value { result ≡ write_reply kind camera (length payload.now) (length room.old) }
    ensures room_after { room.new ≡ write_room sync kind camera payload.now room.old }
{
    let reply = plan(kind, camera, payload, Words(room.len()));
    if reply.refusal != 0 {
        return reply;
    }
    // `as`, since the payload is no longer than a chunk may have
    let head = [sync, header_word(kind, camera, payload.len() as u16)];
    base_room::put_joined(&head, payload, room);
    reply
}
