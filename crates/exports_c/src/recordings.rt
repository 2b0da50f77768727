// Recordings and reels for C code: what a recording holds, a frame of it, and its reel written and read.
ghost use Rattle.std.specs.Prelude.{◌≡◌, length};
ghost use Rattle.chunk_reading.specs.Counting.{survey_reply};
ghost use Rattle.chunk_outline.specs.Outline.{outline_reply};
ghost use Rattle.frame_reading.specs.Replies.{read_reply, read_room};
ghost use Rattle.reel.specs.Reading as reels;
ghost use Rattle.reel_writing.specs.Writing.{write_reply, write_room};
ghost use Rattle.exports.specs.Answer.{surveyed, outlined, framed, written, reeled};

// The survey: chunks, skipped words, and whether a chunk ends with the recording.
#[unsafe(no_mangle)]
pub extern "C" fn hawserfen_survey(recording: &[u16], sync: u16) -> u64
    ensures { result ≡ surveyed (survey_reply sync recording.now) }
{
    exports::recordings::hawserfen_survey(recording, sync)
}

// The outline: image runs and health runs.
#[unsafe(no_mangle)]
pub extern "C" fn hawserfen_outline(recording: &[u16], sync: u16) -> u64
    ensures { result ≡ outlined (outline_reply sync recording.now) }
{
    exports::recordings::hawserfen_outline(recording, sync)
}

// The frame at a place, its data to the room: chunks, data words, and the camera with the flags above it.
#[unsafe(no_mangle)]
pub extern "C" fn hawserfen_read_frame(
    recording: &[u16],
    sync: u16,
    place: usize,
    room: &mut [u16],
) -> u64
    ensures value { result ≡ framed (read_reply sync recording.now place (length room.old)) }
    ensures room_after { room.new ≡ read_room sync recording.now place room.old }
{
    exports::recordings::hawserfen_read_frame(recording, sync, place, room)
}

// The reel writer: the reel of the recording to the room.
#[unsafe(no_mangle)]
pub extern "C" fn hawserfen_write_reel(recording: &[u16], sync: u16, room: &mut [u16]) -> u64
    ensures value { result ≡ written (write_reply sync recording.now (length room.old)) }
    ensures room_after { room.new ≡ write_room sync recording.now room.old }
{
    exports::recordings::hawserfen_write_reel(recording, sync, room)
}

// The reel reader: the recording's words, and the entries.
#[unsafe(no_mangle)]
pub extern "C" fn hawserfen_read_reel(reel: &[u16], sync: u16) -> u64
    ensures { result ≡ reeled (reels.read_reply sync reel.now) }
{
    exports::recordings::hawserfen_read_reel(reel, sync)
}
