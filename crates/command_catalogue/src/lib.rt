// The catalogues of the two X-ray monitors: which fields and further bytes a command may have. One judgement, for the reader and for the writer.
#![tactic(auto)]

mod table;

ghost use Rattle.std.specs.Prelude.{◌≡◌, eqb, drop};
ghost use Rattle.base.specs.Refusal.{verdict};
ghost use Rattle.command_catalogue.specs.Table.{any_of};
ghost use Rattle.command_catalogue.specs.Rules.{asked_wrong, patch_lengths, zeros, fields_wrong, further_wrong, judge_causes};

use crate::table::{Permits, look_up};
use base::refusal::{ARGUMENT, COMMAND_FIELD, COMMAND_TYPE, FURTHER_DATA, MODE, cause};

// The catalogues and the modes, as the calls take them: catalogue 1 is D-CIXS, 2 is C1XS. Numbers and no enums, for `judge` refuses one that is none;
// and each for itself, as C hands them over (`hawserfen_read_command`), since `first` of `command` asks for the catalogue alone.
pub const DCIXS: u8 = 1;

pub const C1XS: u8 = 2;

pub const EMERGENCY: u8 = 0;

pub const STANDBY: u8 = 1;

pub const OPERATING: u8 = 2;

// The one type that has further data.
const PATCH: u8 = 2;

// Whether a catalogue or a mode is asked for that is none.
pub fn asked_wrong(catalogue: u8, mode: u8) -> bool
    ensures { result ≡ asked_wrong catalogue mode }
{
    !((catalogue == DCIXS || catalogue == C1XS) && mode <= OPERATING)
}

// Whether a PATCH may have so many further bytes.
fn patch_length(catalogue: u8, n: usize) -> bool
    ensures { result ≡ any_of (eqb n) (patch_lengths catalogue) }
{
    if catalogue == DCIXS {
        matches!(n, 8 | 16 | 32 | 64 | 128 | 196)
    } else {
        matches!(n, 8 | 16 | 32 | 38)
    }
}

fn zeros_from(bytes: &[u8], from: usize) -> bool
    ensures { result ≡ zeros (drop from bytes.now) }
{
    bytes.iter().skip(from).all(|byte| *byte == 0)
}

fn fields_wrong(row: Permits, command_type: u8, address: u16, data: u16, n: usize) -> bool
    ensures { result ≡ fields_wrong row command_type address «data» n }
{
    let actual = usize::from(data);
    !(row.qualifier && (row.address || address == 0) && (row.data || data == 0))
        || command_type == PATCH && !(1 <= actual && actual <= n)
}

fn further_wrong(catalogue: u8, command_type: u8, data: u16, further: &[u8]) -> bool
    ensures { result ≡ further_wrong catalogue command_type «data» further.now }
{
    let n = further.len();
    if command_type == PATCH {
        let actual = usize::from(data);
        return !patch_length(catalogue, n) || !zeros_from(further, actual);
    }
    n != 0
}

// The verdict on a command's type, qualifier, address, data and further bytes, in a catalogue and a mode: the answer's number (`Demand1`). They come one by one:
// each function here goes by others of them, and a struct of just these would be built at both calls from `command::Fields`, which has the sequence count too.
pub fn judge(
    catalogue: u8,
    mode: u8,
    command_type: u8,
    qualifier: u8,
    address: u16,
    data: u16,
    further: &[u8],
) -> u8
    ensures { result ≡ verdict (judge_causes catalogue mode command_type qualifier address «data» further.now) }
{
    let row = look_up(catalogue, mode, command_type, qualifier);
    let field = fields_wrong(row, command_type, address, data, further.len());
    let more = further_wrong(catalogue, command_type, data, further);
    let last = cause(MODE, !row.mode, 0);
    let others = cause(COMMAND_FIELD, field, cause(FURTHER_DATA, more, last));
    let command = cause(COMMAND_TYPE, !row.command_type, others);
    cause(ARGUMENT, asked_wrong(catalogue, mode), command)
}
