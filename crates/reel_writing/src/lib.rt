// The writer of a reel.
#![tactic(auto)]

mod index;
mod trailer;

ghost use Rattle.std.specs.Prelude.{◌≡◌, length};
ghost use Rattle.base.specs.Refusal.{verdict};
ghost use Rattle.reel_writing.specs.Writing.{write_causes, write_reply, write_room};

use base::{Words, Written, limit, refusal};
use chunk::header;
use chunk_reading::counting;
use trailer::Content;

// The refusal number, for a room of so many words: it is the answer's (`Demand1`). One that has room for the most entries that there can be needs no count of
// them.
#[tactic(auto, using(crate::proofs::Writing::judging))]
fn judge(recording: &[u16], sync: u16, room: Words) -> u8
    ensures { result ≡ verdict (write_causes sync recording.now room.0) }
{
    if limit::REEL_RECORDING.0 < recording.len() {
        return refusal::LENGTH;
    }
    let n = Words(recording.len());
    let most = n.0 / header::SHORTEST.0;
    if (Content { n, count: most }).reel_words().0 <= room.0 {
        return 0;
    }
    let count = counting::count(recording, sync).chunks;
    let needed = Content { n, count }.reel_words();
    refusal::cause(refusal::ROOM, room.0 < needed.0, 0)
}

// Writes the reel of a recording into lent room.
#[tactic(auto, using(crate::proofs::Writing::writer))]
pub fn write(recording: &[u16], sync: u16, room: &mut [u16]) -> Written
    ensures value { result ≡ write_reply sync recording.now (length room.old) }
    ensures room_after { room.new ≡ write_room sync recording.now room.old }
{
    let verdict = judge(recording, sync, Words(room.len()));
    if verdict != 0 {
        return refusal::settle(verdict, Words(0));
    }
    let n = Words(recording.len());
    base_room::put(recording, room, 0);
    let count = index::write(recording, sync, room);
    let content = Content { n, count };
    content.put_trailer(room);
    refusal::settle(0, content.reel_words())
}
