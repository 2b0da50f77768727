// The observations of a camera in a health packet: types 4, 5 and 6 for cameras 1, 2 and 3. A packet of another type is refused by 7.
#![tactic(auto)]

ghost use Rattle.std.specs.Prelude.{◌≡◌, ◌≤◌, get_or};
ghost use Rattle.base.specs.Number.{bit_set};
ghost use Rattle.base.specs.Refusal.{verdict};
ghost use Rattle.health_observation.specs.Observation.{mode_of, is_observation, observation_causes, refused, observation_of, observation_reply};

use base::size::PACKET;
use base::{number, refusal};
use health::packet;

// What a camera does, by the mode byte.
#[derive(Clone, Copy)]
pub enum Mode {
    Engineering,
    HighResolution,
    Normal,
    NoAcquisition,
    Disabled,
}

// The fields of an observation packet. `mode_word` is word 5 with its low byte, `others` are words 8 to 15. A refusal has its number
// and zeros: `Demand1` says so of this answer, so it is no Result.
#[derive(Clone, Copy)]
pub struct Observed {
    pub refusal: u8,
    pub camera: u16,
    pub crc: u16,
    pub time: u16,
    pub frame: u16,
    pub period: u16,
    pub exposure: u16,
    pub mode: Mode,
    pub mode_word: u16,
    pub rice_en: bool,
    pub rice_dt: bool,
    pub flat_en: bool,
    pub ff_led_en: bool,
    pub st_asap: bool,
    pub region: u16,
    pub others: [u16; 8],
    pub bins: [u16; 16],
}

impl From<u8> for Mode {
    ghost from_gives = { λ byte mode. mode ≡ mode_of byte };

    fn from(byte: u8) -> Mode {
        match byte {
            0 => Mode::Engineering,
            1 => Mode::HighResolution,
            2 => Mode::Normal,
            3 => Mode::NoAcquisition,
            _ => Mode::Disabled,
        }
    }
}

// Whether a bit of a word is 1; bit 15 is the most significant.
fn flag(word: u16, bit: u16) -> bool
    requires { bit ≤ 15 }
    ensures { result ≡ bit_set word bit }
{
    (word >> bit) % 2 == 1
}

// By the type and words 6 and 7.
#[tactic(auto, unfolding(crate::specs::Observation::is_observation))]
fn is_observation(packet_type: u16, flags: u16, map: u16) -> bool
    ensures { result ≡ is_observation packet_type flags map }
{
    (4..=6).contains(&packet_type) && flags % 2048 == 0 && map / 4096 <= 4 && map % 4096 == 0
}

// The number of the answer (`Demand1`).
fn observation_verdict(packet: &[u16]) -> u8
    ensures { result ≡ verdict (observation_causes packet.now) }
{
    let ours = is_observation(
        base_room::at(packet, 0),
        base_room::at(packet, 6),
        base_room::at(packet, 7),
    );
    packet::judge(packet, !ours)
}

fn refused(number: u8) -> Observed
    ensures { result ≡ refused number }
{
    Observed {
        refusal: number,
        camera: 0,
        crc: 0,
        time: 0,
        frame: 0,
        period: 0,
        exposure: 0,
        mode: Mode::Engineering,
        mode_word: 0,
        rice_en: false,
        rice_dt: false,
        flat_en: false,
        ff_led_en: false,
        st_asap: false,
        region: 0,
        others: [0; 8],
        bins: [0; 16],
    }
}

#[tactic(auto, using(crate::proofs::Judged::bins_of))]
fn observation_fields(packet: &[u16; PACKET.0]) -> Observed
    requires { 3 ≤ get_or packet.now 0 0 }
    ensures { result ≡ observation_of packet.now }
{
    let times = packet[4];
    let mode_word = packet[5];
    let flags = packet[6];
    let mut others = [0; 8];
    let mut bins = [0; 16];
    others.copy_from_slice(&packet[8..16]);
    bins.copy_from_slice(&packet[16..]);
    Observed {
        refusal: 0,
        camera: packet[0] - 3,
        crc: packet[1],
        time: packet[2],
        frame: packet[3],
        period: u16::from(number::high_byte(times)),
        exposure: u16::from(number::low_byte(times)),
        mode: Mode::from(number::high_byte(mode_word)),
        mode_word,
        rice_en: flag(flags, 15),
        rice_dt: flag(flags, 14),
        flat_en: flag(flags, 13),
        ff_led_en: flag(flags, 12),
        st_asap: flag(flags, 11),
        region: packet[7] / 4096,
        others,
        bins,
    }
}

// The fields of an observation of camera 1, 2 or 3.
#[tactic(auto, using(crate::proofs::Judged::accepted), unfolding(crate::specs::Observation::observation_reply, base::specs::Refusal::answer))]
pub fn observation(packet: &[u16]) -> Observed
    ensures { result ≡ observation_reply packet.now }
{
    let Some(packet) = packet.as_array() else {
        return refused(refusal::LENGTH);
    };
    let verdict = observation_verdict(packet);
    if verdict != 0 {
        return refused(verdict);
    }
    observation_fields(packet)
}
