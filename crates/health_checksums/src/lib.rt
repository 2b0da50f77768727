// The flat field checksums of a health packet of type 8; a packet of another type is refused by 7.
#![tactic(auto)]

ghost use Rattle.std.specs.Prelude.{◌≡◌, ◌+◌, ◌≤◌, length, take, drop};
ghost use Rattle.base.specs.Refusal.{verdict};
ghost use Rattle.health_checksums.specs.Checksums.{checksums_causes, checksums_reply};

use base::Words;
use health::packet;

// The number of a refusal, which `checksums` has no room for.
pub fn checksums_refusal(packet: &[u16]) -> u8
    ensures { result ≡ verdict (checksums_causes packet.now) }
{
    packet::judge(packet, base_room::at(packet, 0) != 8)
}

// The eight pages of the camera whose words begin at a place.
fn pages(packet: &[u16], at: Words) -> [u16; 8]
    requires { at.0 + 8 ≤ length packet.now }
    ensures { result ≡ take 8 (drop at.0 packet.now) }
{
    let mut words = [0; 8];
    words.copy_from_slice(&packet[at.0..at.0 + 8]);
    words
}

// The checksums of three cameras with eight pages each; zeros, and no `Option`, on a refusal, since `Demand1` says so of this answer. docs/PROMISES.md names the
// array by value.
#[tactic(auto, using(crate::proofs::Long::accepted_long), unfolding(crate::specs::Checksums::checksums_reply, base::specs::Refusal::answer))]
pub fn checksums(packet: &[u16]) -> [[u16; 8]; 3]
    ensures { result ≡ checksums_reply packet.now }
{
    if checksums_refusal(packet) != 0 {
        return [[0; 8]; 3];
    }
    // tried: by `map`, `pages` asks for more than the closure knows, that the packet has 32 words
    [
        pages(packet, Words(3)),
        pages(packet, Words(11)),
        pages(packet, Words(19)),
    ]
}
