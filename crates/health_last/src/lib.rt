// The last sound packet of a type in each of two recordings, a science recording and a health recording, and the newer of the two.
#![tactic(auto)]

mod seek;

ghost use Rattle.std.specs.Prelude.{◌≡◌, ◌+◌, ◌≤◌, length};
ghost use Rattle.base.specs.Size.{packet_width};
ghost use Rattle.base.specs.Refusal.{verdict};
ghost use Rattle.health.specs.Packet.{packet_at, packet_time};
ghost use Rattle.health_last.specs.Last.{argument_causes, place, refused, ahead, newer, recording_number, shown, newest, last_place_reply, last_packet_reply};

use base::size::PACKET;
use base::{Words, limit, refusal};

// a packet's time is its word 2
const TIME: Words = Words(2);

// A packet that was found in a science recording: where it stands, and whether its chunk ends with the recording.
#[derive(Clone, Copy)]
struct Marked {
    at: Words,
    end: bool,
}

// One of the two recordings.
#[derive(Clone, Copy)]
enum Recording {
    Science,
    Health,
}

// Where the packet stands: in the science recording (1) or in the health recording (2), at a place of it; and whether it stands
// in a chunk that ends with the science recording. The recording is a number, 0 on a refusal, and this no Result, for the C
// interface answers it and `Demand1` says that a refusal has its number and zeros.
#[derive(Clone, Copy)]
pub struct Place {
    pub refusal: u8,
    pub recording: u8,
    pub at: Words,
    pub end: bool,
}

// What the arguments alone refuse: the number of the answer (`Demand1`).
fn judge(science: &[u16], health: &[u16], packet_type: u16) -> u8
    ensures { result ≡ verdict (argument_causes science.now health.now packet_type) }
{
    let asked = (1..=15).contains(&packet_type);
    let words = health.len();
    let packets = words % PACKET.0 == 0 && words <= limit::HEALTH_RECORDING.0;
    refusal::cause(
        refusal::ARGUMENT,
        !asked,
        refusal::cause(refusal::LENGTH, limit::too_long(science) || !packets, 0),
    )
}

// The time of the packet at a place.
#[tactic(auto, using(crate::proofs::Placed::time_word))]
fn time_at(words: &[u16], at: Words) -> u16
    requires { at.0 + packet_width ≤ length words.now }
    ensures { result ≡ packet_time (packet_at words.now at.0) }
{
    words[at.0 + TIME.0]
}

// How far the health recording's time lies after the science recording's, round the turn.
fn ahead(science: u16, health: u16) -> u16
    ensures { result ≡ ahead science health }
{
    health.wrapping_sub(science)
}

// The recording whose packet is newer by their times: the science recording at equal times too, none where they are exactly half a
// turn apart.
#[tactic(auto, unfolding(crate::specs::Last::newer))]
fn newer(science: u16, health: u16) -> Option<Recording>
    ensures { recording_number result ≡ newer science health }
{
    match ahead(science, health) {
        1..=32767 => Some(Recording::Health),
        32768 => None,
        _ => Some(Recording::Science),
    }
}

fn place_in(recording: u8, at: Words, end: bool) -> Place
    ensures { result ≡ place 0 recording at.0 end }
{
    Place {
        refusal: 0,
        recording,
        at,
        end,
    }
}

fn refused(number: u8) -> Place
    ensures { result ≡ refused number }
{
    Place {
        refusal: number,
        recording: 0,
        at: Words(0),
        end: false,
    }
}

// The rule for which packet is shown where both recordings have one.
#[tactic(auto, unfolding(crate::specs::Last::shown, crate::specs::Last::place_in))]
fn choose(science: Marked, health: Words, newer: Option<Recording>) -> Place
    ensures { result ≡ shown (Some science.at) science.end (Some health) (recording_number newer) }
{
    match newer {
        Some(Recording::Science) => place_in(1, science.at, science.end),
        Some(Recording::Health) => place_in(2, health, false),
        None => refused(0),
    }
}

// The last sound packet of each recording, and the newer of the two, or the one that is alone.
fn newest(science: &[u16], sync: u16, health: &[u16], packet_type: u16) -> Place
    ensures { result ≡ newest sync science.now health.now packet_type }
{
    let in_science = seek::in_science(science, sync, packet_type);
    let in_health = seek::in_row(
        health,
        packet_type,
        false,
        Words(0),
        health.len() / PACKET.0,
    );
    match (in_science, in_health) {
        (Some(found), Some(at)) => {
            let newer = newer(time_at(science, found.at), time_at(health, at));
            choose(found, at, newer)
        }
        (Some(found), None) => place_in(1, found.at, found.end),
        (None, Some(at)) => place_in(2, at, false),
        (None, None) => refused(0),
    }
}

// Where the packet that is shown of a type stands: the second call beside `last_packet`, and its number.
pub fn last_place(science: &[u16], sync: u16, health: &[u16], packet_type: u16) -> Place
    ensures { result ≡ last_place_reply sync science.now health.now packet_type }
{
    let verdict = judge(science, health, packet_type);
    if verdict != 0 {
        return refused(verdict);
    }
    let place = newest(science, sync, health, packet_type);
    if place.recording == 0 {
        return refused(refusal::NOTHING_THERE);
    }
    place
}

// The 32 words at a place.
fn packet_at(words: &[u16], at: Words) -> &[u16]
    requires { at.0 + packet_width ≤ length words.now }
    ensures { result.now ≡ packet_at words.now at.0 }
{
    &words[at.0..at.0 + PACKET.0]
}

// The packet that is shown of a type, as a part of the recording that it stands in; empty, and no `Option`, where `last_place` refuses, which has the number:
// `Demand1` says so of this answer. Both recordings, sync word and type come one by one here, as C hands them over.
pub fn last_packet<'a>(
    science: &'a [u16],
    sync: u16,
    health: &'a [u16],
    packet_type: u16,
) -> &'a [u16]
    ensures { result.now ≡ last_packet_reply sync science.now health.now packet_type }
{
    let place = last_place(science, sync, health, packet_type);
    match place.recording {
        1 => packet_at(science, place.at),
        2 => packet_at(health, place.at),
        _ => &science[..0],
    }
}
