// The X-ray monitors' commands for C code. Their fields are one number of four words: the sequence count, the type and the qualifier, the address, the data.
ghost use Rattle.std.specs.Prelude.{◌≡◌, length};
ghost use Rattle.command_reading.specs.Reading.{read_reply};
ghost use Rattle.command_writing.specs.Writing.{write_reply, write_room};
ghost use Rattle.exports.specs.Answer as says;

// The command reader: the number of further bytes; the fields where nothing is refused.
#[unsafe(no_mangle)]
pub extern "C" fn hawserfen_read_command(
    catalogue: u8,
    mode: u8,
    bytes: &[u8],
    fields: &mut u64,
) -> u64
    ensures value { result ≡ says.commanded (read_reply catalogue mode bytes.now) }
    ensures fields_after { fields.new ≡ says.fields_after (read_reply catalogue mode bytes.now) fields.old }
{
    exports::commands::hawserfen_read_command(catalogue, mode, bytes, fields)
}

// The command writer: the command of these fields to the room.
#[unsafe(no_mangle)]
pub extern "C" fn hawserfen_write_command(
    catalogue: u8,
    mode: u8,
    fields: u64,
    further: &[u8],
    room: &mut [u8],
) -> u64
    ensures value { result ≡ says.sent (write_reply catalogue mode (says.unpacked fields) further.now (length room.old)) }
    ensures room_after { room.new ≡ write_room catalogue mode (says.unpacked fields) further.now room.old }
{
    exports::commands::hawserfen_write_command(catalogue, mode, fields, further, room)
}
