// The trailer of a reel that is written, and the words that the reel has with it.
ghost use Rattle.std.specs.Prelude.{◌≡◌, ◌+◌, ◌*◌, ◌≤◌, length, take, drop};
ghost use Rattle.base.specs.Limit.{reel_limit};
ghost use Rattle.base_room.specs.Room.{put};
ghost use Rattle.reel.specs.Layout.{entry_width, reel_words, trailer};

use base::Words;
use reel::layout;

// What stands on a reel: a recording of n words within its limit, and fewer entries than words.
#[derive(Clone, Copy)]
pub struct Content {
    pub n: Words,
    pub count: usize,
    ghost few: { (n.0 ≤ reel_limit) × (count ≤ n.0) },
}

impl Content {
    // The words of the reel.
    pub fn reel_words(self) -> Words
        ensures { result.0 ≡ reel_words self.n.0 self.count }
    {
        Words(self.n.0 + layout::ENTRY.0 * self.count + layout::TRAILER.0)
    }

    // The trailer after the recording and its entries, all of which stand in the room. `as`, since both numbers are below the limit.
    #[tactic(auto, using(crate::proofs::trailer::Putting::trailer_put))]
    pub fn put_trailer(self, room: &mut [u16])
        requires { reel_words self.n.0 self.count ≤ length room.old }
        ensures { room.new ≡ put (trailer (take (entry_width * self.count) (drop self.n.0 room.old)) self.count self.n.0) (self.n.0 + entry_width * self.count) room.old }
    {
        let first = self.n.0;
        let at = first + layout::ENTRY.0 * self.count;
        base_room::put(&[self.count as u16, first as u16], room, at);
        let covered = at + 2;
        let crc = crc::words(crc::START, &room[first..covered]);
        base_room::put(&[crc, layout::EDITION], room, covered);
    }
}
