// The single event upsets of a health packet of type 10; a packet of another type is refused by 7.
#![tactic(auto)]

ghost use Rattle.std.specs.Prelude.{◌≡◌, map, ◌≤◌};
ghost use Rattle.base.specs.Refusal.{verdict};
ghost use Rattle.health_upsets.specs.Upsets.{last_filled, upsets_causes, upset_at, oldest_first, refused, upsets_reply};

use base::size::PACKET;
use base::{number, refusal};
use health::packet;
use std::array;

// One single event upset.
#[derive(Clone, Copy, Default)]
pub struct Upset {
    pub address: u16,
    pub time: u16,
    pub value: u16,
}

// The fields of an upset packet, its entries oldest first. A refusal has its number and zeros: `Demand1` says so of this answer, so
// it is no Result.
#[derive(Clone, Copy)]
pub struct UpsetTable {
    pub refusal: u8,
    pub total: u16,
    pub last: u16,
    pub entries: [Upset; 9],
}

// Word 4's low byte; its high byte is spare.
fn last_filled(packet: &[u16]) -> u16
    ensures { result ≡ last_filled packet.now }
{
    u16::from(number::low_byte(base_room::at(packet, 4)))
}

// The number of the answer (`Demand1`).
fn upset_verdict(packet: &[u16]) -> u8
    ensures { result ≡ verdict (upsets_causes packet.now) }
{
    let packet_type = base_room::at(packet, 0);
    let last = last_filled(packet);
    packet::judge(packet, !(packet_type == 10 && last <= 8))
}

// The entry of a number.
fn upset_at(packet: &[u16; PACKET.0], number: usize) -> Upset
    requires { number ≤ 8 }
    ensures { result ≡ upset_at packet.now number }
{
    let from = 5 + 3 * number;
    Upset {
        address: packet[from],
        time: packet[from + 1],
        value: packet[from + 2],
    }
}

fn oldest_first(packet: &[u16; PACKET.0], last: u16) -> [Upset; 9]
    ensures { result ≡ map (upset_at packet.now) (oldest_first last) }
{
    array::from_fn(|k| upset_at(packet, (usize::from(last) + 1 + k) % 9))
}

fn refused(number: u8) -> UpsetTable
    ensures { result ≡ refused number }
{
    UpsetTable {
        refusal: number,
        total: 0,
        last: 0,
        entries: [Upset::default(); 9],
    }
}

// The fields of an upset packet.
#[tactic(auto, unfolding(crate::specs::Upsets::upsets_reply, base::specs::Refusal::answer))]
pub fn upsets(packet: &[u16]) -> UpsetTable
    ensures { result ≡ upsets_reply packet.now }
{
    let Some(packet) = packet.as_array() else {
        return refused(refusal::LENGTH);
    };
    let verdict = upset_verdict(packet);
    if verdict != 0 {
        return refused(verdict);
    }
    let last = last_filled(packet);
    UpsetTable {
        refusal: 0,
        total: packet[3],
        last,
        entries: oldest_first(packet, last),
    }
}
