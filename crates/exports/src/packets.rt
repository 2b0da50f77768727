// Health packets for C code: where the newest of a type stands, and one packet read.
ghost use Rattle.std.specs.Prelude.{◌≡◌, length};
ghost use Rattle.health_last.specs.Last.{last_place_reply};
ghost use Rattle.exports.specs.Answer.{placed, packet_reply, packet_room};

use crate::answer;
use base::refusal;
use health::packet;

// The newest packet of a type: its recording, its place there, and the mark of its chunk.
#[tactic(auto, unfolding(crate::specs::Answer::placed))]
pub fn hawserfen_last_place(science: &[u16], sync: u16, health: &[u16], packet_type: u16) -> u64
    ensures { result ≡ placed (last_place_reply sync science.now health.now packet_type) }
{
    let p = health_last::last_place(science, sync, health, packet_type);
    answer::in_words(
        p.refusal,
        usize::from(p.recording),
        p.at.0,
        answer::flag(p.end, 1),
    )
}

// The packet reader: type and time; the words after these to the room.
#[tactic(auto, using(crate::proofs::packets::Reading::reader))]
pub fn hawserfen_read_packet(packet: &[u16], room: &mut [u16]) -> u64
    ensures value { result ≡ packet_reply packet.now (length room.old) }
    ensures room_after { room.new ≡ packet_room packet.now room.old }
{
    let p = packet::read_packet(packet);
    if p.refusal != 0 {
        return answer::in_words(p.refusal, 0, 0, 0);
    }
    if room.len() < p.words.len() {
        return answer::in_words(refusal::ROOM, 0, 0, 0);
    }
    base_room::put(&p.words, room, 0);
    answer::in_words(0, usize::from(p.packet_type), usize::from(p.time), 0)
}
