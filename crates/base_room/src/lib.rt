// Reading and writing lent memory at any place: every call is total.
#![tactic(auto)]

ghost use Rattle.std.specs.Prelude.{◌≡◌, ◌++◌, get_or};
ghost use Rattle.base_room.specs.Room.{put};

// What lent memory holds: words, or bytes. std's `Default` does not say which value it gives.
pub trait Item: Copy {
    ghost ZERO: { Self };

    const ZERO: Self;
}

impl Item for u16 {
    ghost ZERO = { 0 };

    const ZERO: u16 = 0;
}

impl Item for u8 {
    ghost ZERO = { 0 };

    const ZERO: u8 = 0;
}

// The item at a place, 0 past the end.
pub fn at<T: Item>(items: &[T], place: usize) -> T
    ensures { result ≡ get_or items.now place T.ZERO }
{
    items.get(place).copied().unwrap_or(T::ZERO)
}

// The items at a place of the room, where they fit; else nothing. `copy_from_slice` would call C's `memmove`, and the archive for C needs nothing else linked.
#[tactic(auto, using(crate::proofs::RoomLaws::put_laws))]
pub fn put<T: Copy>(items: &[T], room: &mut [T], at: usize)
    ensures { room.new ≡ put items.now at room.old }
{
    if at <= room.len() && items.len() <= room.len() - at {
        for (i, item) in items.iter().enumerate() {
            room[at + i] = *item;
        }
    }
}

// Two runs of items end to end at the front of the room, where both fit; else nothing.
#[tactic(auto, using(crate::proofs::RoomLaws::put_laws))]
pub fn put_joined<T: Copy>(first: &[T], second: &[T], room: &mut [T])
    ensures { room.new ≡ put (first.now ++ second.now) 0 room.old }
{
    if first.len() <= room.len() && second.len() <= room.len() - first.len() {
        put(first, room, 0);
        put(second, room, first.len());
    }
}
