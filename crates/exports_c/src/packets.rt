// Health packets for C code: where the newest of a type stands, and one packet read.
ghost use Rattle.std.specs.Prelude.{◌≡◌, length};
ghost use Rattle.health_last.specs.Last.{last_place_reply};
ghost use Rattle.exports.specs.Answer.{placed, packet_reply, packet_room};

// The newest packet of a type: its recording, its place there, and the mark of its chunk.
#[unsafe(no_mangle)]
pub extern "C" fn hawserfen_last_place(
    science: &[u16],
    sync: u16,
    health: &[u16],
    packet_type: u16,
) -> u64
    ensures { result ≡ placed (last_place_reply sync science.now health.now packet_type) }
{
    exports::packets::hawserfen_last_place(science, sync, health, packet_type)
}

// The packet reader: type and time; the words after these to the room.
#[unsafe(no_mangle)]
pub extern "C" fn hawserfen_read_packet(packet: &[u16], room: &mut [u16]) -> u64
    ensures value { result ≡ packet_reply packet.now (length room.old) }
    ensures room_after { room.new ≡ packet_room packet.now room.old }
{
    exports::packets::hawserfen_read_packet(packet, room)
}
