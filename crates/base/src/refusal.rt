// The refusal numbers, and the choice among a call's causes. They are numbers and no enum, and a verdict is one of them and no Result, since `Demand1` says of
// each call where the number stands in its answer, with zeros beside it: so it goes from where it is found into the answer as it is.
ghost use Rattle.std.specs.Prelude.{◌≡◌, cond};
ghost use Rattle.base.specs.Refusal.{settled};

use crate::{Words, Written};

pub const LENGTH: u8 = 1;

pub const NOTHING_THERE: u8 = 2;

pub const ROOM: u8 = 3;

pub const ARGUMENT: u8 = 4;

pub const CRC: u8 = 5;

pub const PARITY: u8 = 6;

pub const UNSPECIFIED: u8 = 7;

pub const COMMAND_TYPE: u8 = 8;

pub const HEADER: u8 = 9;

pub const COMMAND_FIELD: u8 = 10;

pub const FURTHER_DATA: u8 = 11;

pub const MODE: u8 = 12;

pub const REEL: u8 = 13;

pub const FRAME_CUT: u8 = 14;

// One cause before others: its number where its test holds, else what the others give. A nest of these, ended by 0, is a verdict.
pub fn cause(number: u8, holds: bool, others: u8) -> u8
    ensures { result ≡ cond holds number others }
{
    if holds { number } else { others }
}

// A writer's reply: `length` words where nothing is refused.
#[tactic(auto, unfolding(crate::specs::Refusal::settled, crate::specs::Refusal::answer))]
pub fn settle(verdict: u8, length: Words) -> Written
    ensures { result ≡ settled verdict length.0 }
{
    if verdict == 0 {
        return Written { refusal: 0, length };
    }
    Written {
        refusal: verdict,
        length: Words(0),
    }
}
