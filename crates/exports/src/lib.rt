// The calls for C code to link, under names of their own. To C a slice is two arguments, a pointer and a number of words or bytes, and a reply is one number.
// So an answer is no `Result` here, but a number with the refusal in its highest part, and a recording and its sync word are taken apart.
#![tactic(auto)]

mod answer;
pub mod commands;
pub mod packets;
pub mod recordings;

ghost use Rattle.std.specs.Prelude.{◌≡◌, ◌<◌, length};
ghost use Rattle.crc.specs.Crc.{crc_words, crc_bytes};
ghost use Rattle.parity.specs.Unit.{judge_reply, check_reply, check_room, write_reply, write_room};
ghost use Rattle.exports.specs.Reply.{in_bytes};
ghost use Rattle.exports.specs.Answer.{written};

use parity::Judged;

// The CRC of words from a start register.
pub fn hawserfen_crc_words(start: u16, message: &[u16]) -> u16
    ensures { result ≡ crc_words start message.now }
{
    crc::words(start, message)
}

// The same of bytes.
pub fn hawserfen_crc_bytes(start: u16, message: &[u8]) -> u16
    ensures { result ≡ crc_bytes start message.now }
{
    crc::bytes(start, message)
}

// A reply as one number, a byte each for the refusal, the case, the bit and the word. `as` gives the number of the case, and narrows the word, which fits.
#[tactic(auto, unfolding(crate::specs::Reply::in_bytes))]
fn in_bytes(r: Judged) -> u32
    requires { r.word.0 < 256 }
    ensures { result ≡ in_bytes r }
{
    ((u32::from(r.refusal) * 256 + r.case as u32) * 256 + u32::from(r.bit)) * 256 + r.word.0 as u32
}

// The unit judge: what stands in a unit, without its data.
#[tactic(auto, using(crate::proofs::Bytes::small))]
pub fn hawserfen_judge_unit(unit: &[u16]) -> u32
    ensures { result ≡ in_bytes (judge_reply unit.now) }
{
    in_bytes(parity::judge_unit(unit))
}

// The unit checker: the data to the room too, repaired where a data bit was hit.
#[tactic(auto, using(crate::proofs::Bytes::small))]
pub fn hawserfen_check_unit(unit: &[u16], room: &mut [u16]) -> u32
    ensures value { result ≡ in_bytes (check_reply unit.now (length room.old)) }
    ensures room_after { room.new ≡ check_room unit.now room.old }
{
    in_bytes(parity::check_unit(unit, room))
}

// The unit writer: the unit of the data to the room.
pub fn hawserfen_write_unit(data: &[u16], room: &mut [u16]) -> u64
    ensures value { result ≡ written (write_reply (length «data».now) (length room.old)) }
    ensures room_after { room.new ≡ write_room «data».now room.old }
{
    answer::written(parity::write_unit(data, room))
}
