// The index of a reel that is written, entry by entry as the recording is read.
ghost use Rattle.std.specs.Prelude.{◌≡◌, ◌+◌, ◌*◌, ◌≤◌, ◌<◌, length};
ghost use Rattle.base.specs.Limit.{reel_limit};
ghost use Rattle.base_room.specs.Room.{put};
ghost use Rattle.chunk.specs.Reading.{reading};
ghost use Rattle.reel.specs.Layout.{entry_width, entry_words, index_words};

use base::Words;
use chunk::{Entry, search};
use reel::layout;

// An entry at a place of the room. `as`, since its place is asked to fit.
fn put_entry(entry: Entry, room: &mut [u16], at: Words)
    requires { entry.position.0 < 65536 }
    ensures { room.new ≡ put (entry_words entry) at.0 room.old }
{
    base_room::put(&[entry.position.0 as u16, entry.header], room, at.0);
}

// Writes the entries of a recording into the room behind its n words, and counts them. The count is the answer, and says where the next entry goes; with the
// room's words two by two beside the chunks (`zip`) the loop would count all the same.
pub fn write(recording: &[u16], sync: u16, room: &mut [u16]) -> usize
    requires { (length recording.now ≤ reel_limit) × (length recording.now + entry_width * length (reading sync recording.now) ≤ length room.old) }
    ensures value { result ≡ length (reading sync recording.now) }
    ensures room_after { room.new ≡ put (index_words (reading sync recording.now)) (length recording.now) room.old }
{
    let n = recording.len();
    let mut count = 0;
    for (entry, _) in search::chunks(recording, sync) {
        let at = n + layout::ENTRY.0 * count;
        put_entry(entry, room, Words(at));
        count += 1;
    }
    count
}
