// The packet: 32 words, of which the first three are type, CRC and time.
ghost use Rattle.std.specs.Prelude.{◌≡◌, length, drop};
ghost use Rattle.base.specs.Refusal.{verdict};
ghost use Rattle.health.specs.Packet.{packet_at, packet_crc, permitted_type, sound_packet};
ghost use Rattle.health.specs.Reading.{judge_causes, read_causes, refused, read_reply};
ghost use Rattle.health.specs.Writing.{write_reply, write_room};

use base::size::PACKET;
use base::{Words, Written, refusal};

// the words of a packet after its type, its CRC and its time
const BODY: Words = Words(29);

// What the packet reader gives of a sound packet: its type word, its time and the 29 words after these. A refusal has its number
// and zeros: `Demand1` says so of this answer, so it is no Result.
#[derive(Clone, Copy)]
pub struct Packet {
    pub refusal: u8,
    pub packet_type: u16,
    pub time: u16,
    pub words: [u16; BODY.0],
}

// The types that readers take: 1 to 15, and all with low four bits 0, which are spare.
fn permitted(packet_type: u16) -> bool
    ensures { result ≡ permitted_type packet_type }
{
    (1..=15).contains(&packet_type) || packet_type % 16 == 0
}

// The CRC over word 0 and words 2 to 31.
#[tactic(auto, using(crate::proofs::Parts::crc_parts))]
fn packet_crc(packet: &[u16; PACKET.0]) -> u16
    ensures { result ≡ packet_crc packet.now }
{
    crc::words(crc::words(crc::START, &packet[..1]), &packet[2..])
}

// The verdict on a packet for a reader, a number for its answer (`Demand1`); `odd` says that its type or a field of it is none of the reader's.
pub fn judge(packet: &[u16], odd: bool) -> u8
    ensures { result ≡ verdict (judge_causes packet.now odd) }
{
    let Some(packet) = packet.as_array() else {
        return refusal::LENGTH;
    };
    refusal::cause(
        refusal::CRC,
        packet[1] != packet_crc(packet),
        refusal::cause(refusal::UNSPECIFIED, odd, 0),
    )
}

// The packet reader's verdict, the number of its answer.
fn read_verdict(packet: &[u16]) -> u8
    ensures { result ≡ verdict (read_causes packet.now) }
{
    judge(packet, !permitted(base_room::at(packet, 0)))
}

// Whether these words are a sound packet.
#[tactic(auto, using(crate::proofs::Sound::sound_verdict))]
fn is_sound(packet: &[u16]) -> bool
    ensures { result ≡ sound_packet packet.now }
{
    read_verdict(packet) == 0
}

// Whether a sound packet stands at a place of the words.
#[tactic(auto, using(crate::proofs::Sound::none_there))]
pub fn sound_at(words: &[u16], at: Words) -> bool
    ensures { result ≡ sound_packet (packet_at words.now at.0) }
{
    let Some(rest) = words.get(at.0..) else {
        return false;
    };
    if rest.len() < PACKET.0 {
        return false;
    }
    is_sound(&rest[..PACKET.0])
}

// The 29 words after the first three.
#[tactic(auto, using(crate::proofs::Parts::body))]
fn words_of(packet: &[u16; PACKET.0]) -> [u16; BODY.0]
    ensures { result ≡ drop 3 packet.now }
{
    let mut words = [0; BODY.0];
    words.copy_from_slice(&packet[3..PACKET.0]);
    words
}

fn refused(number: u8) -> Packet
    ensures { result ≡ refused number }
{
    Packet {
        refusal: number,
        packet_type: 0,
        time: 0,
        words: [0; BODY.0],
    }
}

// A packet taken apart.
#[tactic(auto, unfolding(crate::specs::Reading::read_reply, base::specs::Refusal::answer))]
pub fn read_packet(packet: &[u16]) -> Packet
    ensures { result ≡ read_reply packet.now }
{
    let Some(packet) = packet.as_array() else {
        return refused(refusal::LENGTH);
    };
    let verdict = read_verdict(packet);
    if verdict != 0 {
        return refused(verdict);
    }
    Packet {
        refusal: 0,
        packet_type: packet[0],
        time: packet[2],
        words: words_of(packet),
    }
}

// The writer's reply.
fn plan(packet_type: u16, words: Words, room: Words) -> Written
    ensures { result ≡ write_reply packet_type words.0 room.0 }
{
    refusal::settle(
        refusal::cause(
            refusal::ARGUMENT,
            !permitted(packet_type),
            refusal::cause(
                refusal::LENGTH,
                words.0 != BODY.0,
                refusal::cause(refusal::ROOM, room.0 < PACKET.0, 0),
            ),
        ),
        PACKET,
    )
}

// A packet of this type, time and 29 words into lent room.
#[tactic(auto, unfolding(crate::specs::Writing::write_room, crate::specs::Writing::written_crc, base::specs::Refusal::answer, base::specs::Refusal::settled))]
pub fn write_packet(packet_type: u16, time: u16, words: &[u16], room: &mut [u16]) -> Written
    ensures value { result ≡ write_reply packet_type (length words.now) (length room.old) }
    ensures room_after { room.new ≡ write_room packet_type time words.now room.old }
{
    let reply = plan(packet_type, Words(words.len()), Words(room.len()));
    if reply.refusal != 0 {
        return reply;
    }
    let crc = crc::words(crc::words(crc::START, &[packet_type, time]), words);
    base_room::put_joined(&[packet_type, crc, time], words, room);
    reply
}
