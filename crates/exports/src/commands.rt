// The X-ray monitors' commands for C code. Their fields are one number of four words: the sequence count, the type and the qualifier, the address, the data.
ghost use Rattle.std.specs.Prelude.{◌≡◌, length};
ghost use Rattle.command_reading.specs.Reading.{read_reply};
ghost use Rattle.command_writing.specs.Writing.{write_reply, write_room};
ghost use Rattle.exports.specs.Answer as says;

use crate::answer;
use base::number;
use command::Fields;

// The fields as C has them. No `From`: both types are of other crates.
#[tactic(auto, unfolding(crate::specs::Answer::packed))]
fn packed(f: Fields) -> u64
    ensures { result ≡ says.packed f }
{
    let kind = number::word(f.command_type, f.qualifier);
    ((u64::from(f.sequence) * 65536 + u64::from(kind)) * 65536 + u64::from(f.address)) * 65536
        + u64::from(f.data)
}

// And back.
#[tactic(auto, unfolding(crate::specs::Answer::unpacked))]
fn unpacked(n: u64) -> Fields
    ensures { result ≡ says.unpacked n }
{
    let kind = number::low_word(n >> 32);
    Fields {
        sequence: number::low_word(n >> 48),
        command_type: number::high_byte(kind),
        qualifier: number::low_byte(kind),
        address: number::low_word(n >> 16),
        data: number::low_word(n),
    }
}

// The command reader: the number of further bytes; the fields where nothing is refused.
#[tactic(auto, unfolding(crate::specs::Answer::commanded, crate::specs::Answer::fields_after, base::specs::Refusal::answer))]
pub fn hawserfen_read_command(catalogue: u8, mode: u8, bytes: &[u8], fields: &mut u64) -> u64
    ensures value { result ≡ says.commanded (read_reply catalogue mode bytes.now) }
    ensures fields_after { fields.new ≡ says.fields_after (read_reply catalogue mode bytes.now) fields.old }
{
    let c = command_reading::read(catalogue, mode, bytes);
    if c.refusal == 0 {
        let read = c.fields;
        *fields = packed(read);
    }
    answer::in_words(c.refusal, c.further.0, 0, 0)
}

// The command writer: the command of these fields to the room.
#[tactic(auto, unfolding(crate::specs::Answer::sent))]
pub fn hawserfen_write_command(
    catalogue: u8,
    mode: u8,
    fields: u64,
    further: &[u8],
    room: &mut [u8],
) -> u64
    ensures value { result ≡ says.sent (write_reply catalogue mode (says.unpacked fields) further.now (length room.old)) }
    ensures room_after { room.new ≡ write_room catalogue mode (says.unpacked fields) further.now room.old }
{
    let s = command_writing::write(catalogue, mode, unpacked(fields), further, room);
    answer::in_words(s.refusal, s.length.0, 0, 0)
}
