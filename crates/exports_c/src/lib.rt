// The calls for C code to link, under the names that C calls: each is the call of `exports` of that name, and promises the same. A static library; to C a
// slice is two arguments, a pointer and a number of words or bytes, and a reply is one number.
#![tactic(auto)]

pub mod commands;
pub mod packets;
pub mod recordings;

ghost use Rattle.std.specs.Prelude.{◌≡◌, length};
ghost use Rattle.crc.specs.Crc.{crc_words, crc_bytes};
ghost use Rattle.parity.specs.Unit.{judge_reply, check_reply, check_room, write_reply, write_room};
ghost use Rattle.exports.specs.Reply.{in_bytes};
ghost use Rattle.exports.specs.Answer.{written};

// The CRC of words from a start register.
#[unsafe(no_mangle)]
pub extern "C" fn hawserfen_crc_words(start: u16, message: &[u16]) -> u16
    ensures { result ≡ crc_words start message.now }
{
    exports::hawserfen_crc_words(start, message)
}

// The same of bytes.
#[unsafe(no_mangle)]
pub extern "C" fn hawserfen_crc_bytes(start: u16, message: &[u8]) -> u16
    ensures { result ≡ crc_bytes start message.now }
{
    exports::hawserfen_crc_bytes(start, message)
}

// The unit judge: what stands in a unit, without its data.
#[unsafe(no_mangle)]
pub extern "C" fn hawserfen_judge_unit(unit: &[u16]) -> u32
    ensures { result ≡ in_bytes (judge_reply unit.now) }
{
    exports::hawserfen_judge_unit(unit)
}

// The unit checker: the data to the room too, repaired where a data bit was hit.
#[unsafe(no_mangle)]
pub extern "C" fn hawserfen_check_unit(unit: &[u16], room: &mut [u16]) -> u32
    ensures value { result ≡ in_bytes (check_reply unit.now (length room.old)) }
    ensures room_after { room.new ≡ check_room unit.now room.old }
{
    exports::hawserfen_check_unit(unit, room)
}

// The unit writer: the unit of the data to the room.
#[unsafe(no_mangle)]
pub extern "C" fn hawserfen_write_unit(data: &[u16], room: &mut [u16]) -> u64
    ensures value { result ≡ written (write_reply (length «data».now) (length room.old)) }
    ensures room_after { room.new ≡ write_room «data».now room.old }
{
    exports::hawserfen_write_unit(data, room)
}
