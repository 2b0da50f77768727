// The table of the two catalogues, row by row as the rules have it.
ghost use Rattle.std.specs.Prelude.{◌≡◌, true};
ghost use Rattle.command_catalogue.specs.Table.{permitted, permits};

use crate::{C1XS, DCIXS, EMERGENCY, OPERATING, PATCH, STANDBY};
use base::number::either;

// The types of commands, PATCH aside. Numbers and no enum, for a type is a number that anybody may pass, and one that is none has no row.
const DUMMY: u8 = 1;

const DUMP: u8 = 3;

const GOTO: u8 = 4;

const EMODE: u8 = 5;

const TO_OPERATING: u8 = 6;

const TO_STANDBY: u8 = 7;

const TEST: u8 = 8;

const SUBMODE: u8 = 9;

const ON: u8 = 10;

const OFF: u8 = 11;

const XSM_ON: u8 = 12;

const XSM_OFF: u8 = 13;

// What the table permits of a command: its type, its qualifier, an address and data other than zero, and its mode. Whether it has the type is a flag, and this
// no `Option` of the others: `permits`, on which `judge_causes` stands, has five tests, and without a row all are false.
#[derive(Clone, Copy)]
pub struct Permits {
    pub command_type: bool,
    pub qualifier: bool,
    pub address: bool,
    pub data: bool,
    pub mode: bool,
}

fn row(qualifier: bool, address: bool, data: bool, mode: bool) -> Permits
    ensures { result ≡ permitted true qualifier address «data» mode }
{
    Permits {
        command_type: true,
        qualifier,
        address,
        data,
        mode,
    }
}

// The row of a type, with the qualifiers and the modes that it has; nothing is permitted of a type that the catalogue has not.
#[tactic(auto, unfolding(crate::specs::Table::permits, crate::specs::Table::table))]
pub fn look_up(catalogue: u8, mode: u8, command_type: u8, q: u8) -> Permits
    ensures { result ≡ permits catalogue mode command_type q }
{
    let first = catalogue == DCIXS;
    let emergency = mode == EMERGENCY;
    let standby = mode == STANDBY;
    let operating = mode == OPERATING;
    // Joined by `|`: with `||` each row would have branches of its own, at which its proof does not close.
    let every = emergency | standby | operating;
    match command_type {
        DUMMY | EMODE => row(q == 0, false, false, standby | operating),
        PATCH => row(either(first, q <= 15, q <= 17), true, true, every),
        DUMP => {
            let second = matches!(q, 0..=17 | 32..=41 | 64..=73);
            row(either(first, q <= 15, second), true, true, every)
        }
        GOTO => row(q <= 15, true, false, emergency),
        TO_OPERATING => row(q == 0, false, false, standby),
        TEST if first => row(q == 0, false, false, standby),
        TO_STANDBY | ON | OFF | XSM_OFF => row(q == 0, false, false, operating),
        XSM_ON if catalogue == C1XS => row(q == 0, false, false, operating),
        SUBMODE => {
            let second = matches!(q, 0 | 1 | 3..=8);
            row(
                either(first, q <= 4, second),
                false,
                false,
                standby | operating,
            )
        }
        _ => Permits {
            command_type: false,
            qualifier: false,
            address: false,
            data: false,
            mode: false,
        },
    }
}
