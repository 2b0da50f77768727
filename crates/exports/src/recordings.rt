// Recordings and reels for C code: what a recording holds, a frame of it, and its reel written and read.
ghost use Rattle.std.specs.Prelude.{◌≡◌, length};
ghost use Rattle.chunk_reading.specs.Counting.{survey_reply};
ghost use Rattle.chunk_outline.specs.Outline.{outline_reply};
ghost use Rattle.frame_reading.specs.Replies.{read_reply, read_room};
ghost use Rattle.reel.specs.Reading as reels;
ghost use Rattle.reel_writing.specs.Writing.{write_reply, write_room};
ghost use Rattle.exports.specs.Answer.{surveyed, outlined, framed, written, reeled};

use crate::answer;
use base::Words;

// The survey: chunks, skipped words, and whether a chunk ends with the recording.
#[tactic(auto, unfolding(crate::specs::Answer::surveyed))]
pub fn hawserfen_survey(recording: &[u16], sync: u16) -> u64
    ensures { result ≡ surveyed (survey_reply sync recording.now) }
{
    let s = chunk_reading::counting::survey(recording, sync);
    answer::in_words(s.refusal, s.chunks, s.skipped.0, answer::flag(s.end, 1))
}

// The outline: image runs and health runs.
#[tactic(auto, unfolding(crate::specs::Answer::outlined))]
pub fn hawserfen_outline(recording: &[u16], sync: u16) -> u64
    ensures { result ≡ outlined (outline_reply sync recording.now) }
{
    let runs = chunk_outline::outline(recording, sync);
    answer::in_words(runs.refusal, runs.image, runs.health, 0)
}

// The frame at a place, its data to the room: chunks, data words, and the camera with the flags above it.
#[tactic(auto, unfolding(crate::specs::Answer::framed))]
pub fn hawserfen_read_frame(recording: &[u16], sync: u16, place: usize, room: &mut [u16]) -> u64
    ensures value { result ≡ framed (read_reply sync recording.now place (length room.old)) }
    ensures room_after { room.new ≡ read_room sync recording.now place room.old }
{
    let f = frame_reading::read(recording, sync, Words(place), room);
    let flags = answer::flag(f.complete, 4) + answer::flag(f.end, 8);
    answer::in_words(
        f.refusal,
        f.chunks,
        f.length.0,
        usize::from(f.camera) + flags,
    )
}

// The reel writer: the reel of the recording to the room.
pub fn hawserfen_write_reel(recording: &[u16], sync: u16, room: &mut [u16]) -> u64
    ensures value { result ≡ written (write_reply sync recording.now (length room.old)) }
    ensures room_after { room.new ≡ write_room sync recording.now room.old }
{
    answer::written(reel_writing::write(recording, sync, room))
}

// The reel reader: the recording's words, and the entries.
#[tactic(auto, unfolding(crate::specs::Answer::reeled))]
pub fn hawserfen_read_reel(reel: &[u16], sync: u16) -> u64
    ensures { result ≡ reeled (reels.read_reply sync reel.now) }
{
    let r = reel::read(reel, sync);
    answer::in_words(r.refusal, r.n.0, r.entries, 0)
}
