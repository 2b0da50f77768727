// A program's input: the bytes of a reader. What they are is the reader's; that they are counted within the room is proved.
#![tactic(auto)]

ghost use Rattle.std.specs.Prelude.{IfOk};
ghost use Rattle.io.specs.Counts.{IsPrefixLen};

use base::Bytes;
use std::io::{self, Read};

// Reads until the input ends or the room is full, and how many bytes came. A pipe may hand over a few bytes at a time, so a
// reading is no item of a row that a `for` could go over.
pub fn take<R: Read>(reader: &mut R, room: &mut [u8]) -> io::Result<Bytes>
    ensures { IfOk result (λ count. IsPrefixLen count.0 room.new) }
{
    let mut count: usize = 0;
    while count < room.len() {
        let more = reader.read(&mut room[count..])?;
        if more == 0 {
            break;
        }
        count += more;
    }
    Ok(Bytes(count))
}
