// The listed chunks of a recording, counted by kind and camera, with the packets and units in them and the words between them, in one pass.
ghost use Rattle.std.specs.Prelude.{◌≡◌, false, ◌+◌, ◌*◌, ◌≤◌, length, MatchOption};
ghost use Rattle.base.specs.Size.{packet_width};
ghost use Rattle.base.specs.Limit.{too_long};
ghost use Rattle.chunk.specs.Header.{span};
ghost use Rattle.parity_units.specs.Split.{units_in};
ghost use Rattle.health_places.specs.Packets.{packet_places, chunk_places};
ghost use Rattle.tally_recording.specs.Numbers.{sums, any_past};
ghost use Rattle.tally_recording.specs.Tally.{sort, packet_numbers, unit_numbers};
ghost use Rattle.tally_recording.specs.Walk.{SoundNone, SoundOne, chunk_unit_numbers, listed_of};

use base::Words;
use base::size::PACKET;
use chunk::{Entry, header, search};
use health::packet;

// words of a packet, by a name of their own: a const argument may not be computed
const PACKET_WORDS: usize = PACKET.0;

// What is counted of the listed chunks.
#[derive(Clone, Copy)]
pub struct Listed {
    pub skipped: u32,
    pub chunks: [u32; 5],
    pub packets: [u32; 15],
    pub units: [u32; 4],
}

// The place of a chunk's number: the camera of an image chunk, 4 for health.
fn sort_of(header: u16) -> usize
    ensures { result ≡ sort header }
{
    if header::kind_of(header) == 0 {
        usize::from(header::camera_of(header))
    } else {
        4
    }
}

// The type of the sound packet at a place, 1 to 15; none where none is there, or one of a spare type. The CRC of a packet with another type word is not
// computed.
#[tactic(auto, using(crate::proofs::Packets::sound_here, crate::proofs::Packets::unsound_here, crate::proofs::Packets::spare_below, crate::proofs::Packets::spare_above))]
fn sound_type(words: &[u16], at: Words) -> Option<u16>
    ensures { MatchOption result (SoundNone words.now at.0) (λ t. SoundOne words.now at.0 t) }
{
    match base_room::at(words, at.0) {
        t @ 1..=15 if packet::sound_at(words, at) => Some(t),
        _ => None,
    }
}

// The sound packets among `count` packets back to back, added by type.
fn row_packets(packets: [u32; 15], words: &[u16], from: Words, count: usize) -> [u32; 15]
    requires count_in_bounds { from.0 + packet_width * count ≤ length words.now }
    requires from_value { any_past (sums packets (packet_numbers words.now (packet_places count from.0))) ≡ false }
    ensures { result ≡ sums packets (packet_numbers words.now (packet_places count from.0)) }
{
    let mut all = packets;
    let end = from.0 + PACKET.0 * count;
    let (row, _) = words[from.0..end].as_chunks::<PACKET_WORDS>();
    for packet in row {
        if let Some(t) = sound_type(packet, Words(0)) {
            all[usize::from(t) - 1] += 1;
        }
    }
    all
}

// The sound packets of a chunk, which has some where it is health, added by type.
fn chunk_packets(packets: [u32; 15], words: &[u16], chunk: Entry) -> [u32; 15]
    requires header_in_bounds { chunk.position.0 + span chunk.header ≤ length words.now }
    requires chunk_value { any_past (sums packets (packet_numbers words.now (chunk_places chunk))) ≡ false }
    ensures { result ≡ sums packets (packet_numbers words.now (chunk_places chunk)) }
{
    if header::kind_of(chunk.header) != 1 {
        return packets;
    }
    row_packets(
        packets,
        words,
        Words(chunk.position.0 + header::HEADER.0),
        header::size_of(chunk.header).0 / PACKET.0,
    )
}

// The units of a payload, added by outcome. `as` narrows here and below, where `try_from` would give an error that cannot be: that each number fits is proved.
// That no sum passes is asked by each function of what it adds: it follows from the limit at `count` alone, so no type of the numbers could hold it.
#[tactic(auto, using(crate::proofs::Units::sound_fits, crate::proofs::Units::hit_fits, crate::proofs::Units::repaired_fits, crate::proofs::Units::refused_fits, crate::proofs::Units::sound_small, crate::proofs::Units::hit_small, crate::proofs::Units::repaired_small, crate::proofs::Units::refused_small, crate::proofs::Units::units_added))]
fn payload_units(units: [u32; 4], payload: &[u16]) -> [u32; 4]
    requires { any_past (sums units (unit_numbers (units_in payload.now))) ≡ false }
    ensures { result ≡ sums units (unit_numbers (units_in payload.now)) }
{
    let outcomes = parity_units::count(payload);
    let [sound, hit, repaired, refused] = units;
    [
        sound + outcomes.sound as u32,
        hit + outcomes.hit as u32,
        repaired + outcomes.repaired as u32,
        refused + outcomes.refused as u32,
    ]
}

// The units of a chunk, which has some where it is an image chunk, added by outcome.
fn chunk_units(units: [u32; 4], words: &[u16], chunk: Entry) -> [u32; 4]
    requires header_in_bounds { chunk.position.0 + span chunk.header ≤ length words.now }
    requires chunk_value { any_past (sums units (chunk_unit_numbers words.now chunk)) ≡ false }
    ensures { result ≡ sums units (chunk_unit_numbers words.now chunk) }
{
    if header::kind_of(chunk.header) != 0 {
        return units;
    }
    let from = chunk.position.0 + header::HEADER.0;
    let end = from + header::size_of(chunk.header).0;
    payload_units(units, &words[from..end])
}

// The listed chunks of a recording within the limit.
pub fn count(words: &[u16], sync: u16) -> Listed
    requires { too_long words.now ≡ false }
    ensures { result ≡ listed_of sync words.now }
{
    let mut skipped: u32 = 0;
    let mut chunks = [0u32; 5];
    let mut packets = [0u32; 15];
    let mut units = [0u32; 4];
    let mut at = 0;
    for (entry, past) in search::chunks(words, sync) {
        skipped += (entry.position.0 - at) as u32;
        let place = sort_of(entry.header);
        chunks[place] += 1;
        let counted = chunk_packets(packets, words, entry);
        let judged = chunk_units(units, words, entry);
        packets = counted;
        units = judged;
        at = past.0;
    }
    Listed {
        skipped: skipped + (words.len() - at) as u32,
        chunks,
        packets,
        units,
    }
}
