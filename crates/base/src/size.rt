// Sizes in words that several formats share.
use crate::Words;

// the parity words of a unit, its data words at the most, and a whole unit
pub const PARITY: Words = Words(8);

pub const DATA: Words = Words(256);

pub const UNIT: Words = Words(PARITY.0 + DATA.0);
// a health packet
pub const PACKET: Words = Words(32);
