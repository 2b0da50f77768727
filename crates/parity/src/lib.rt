// Parity units: written, judged, checked and repaired.
#![tactic(auto)]

ghost use Rattle.std.specs.Prelude.{◌≡◌, ◌-◌, ◌%◌, ◌≤◌, length};
ghost use Rattle.parity.specs.Unit.{reply, refused, named, five_cases, judge_reply, check_reply, check_room, write_reply, write_room};

use base::size::{DATA, PARITY, UNIT};
use base::{Words, Written, refusal};

// What was hit in a unit: nothing, a parity bit, or a data bit, which is repaired. C code is given the number of the case.
#[derive(Clone, Copy, PartialEq, Eq)]
pub enum Case {
    Sound,
    ParityBit,
    DataBit,
}

// What is found of a unit: the case, the parity or data word and the bit that was hit, zeros if sound, and the number of data words.
// A refusal has its number and zeros, and the case of a sound unit: `Demand1` says so of this answer, so it is no Result.
#[derive(Clone, Copy)]
pub struct Judged {
    pub refusal: u8,
    pub case: Case,
    pub word: Words,
    pub bit: u8,
    pub length: Words,
}

fn refused(number: u8) -> Judged
    ensures { result ≡ refused number }
{
    Judged {
        refusal: number,
        case: Case::Sound,
        word: Words(0),
        bit: 0,
        length: Words(0),
    }
}

fn accept(case: Case, word: Words, bit: u8, k: Words) -> Judged
    ensures { result ≡ reply 0 case word.0 bit k.0 }
{
    Judged {
        refusal: 0,
        case,
        word,
        bit,
        length: k,
    }
}

// A row's or a column's bit in its parity word, and a column's in its data words. It is below 16, so `as` loses nothing.
fn bit_of(place: usize) -> u8
    ensures { result ≡ 15 - place % 16 }
{
    (15 - place % 16) as u8
}

// The five cases, where r rows and c columns differ, `row` and `column` first, in a unit with k data words. The answer is made once, behind the
// `match`: made in each arm it was copied on, and a unit of few words took 1.6 times the time.
#[tactic(auto, unfolding(crate::specs::Unit::five_cases))]
fn five_cases(r: u32, c: u32, row: usize, column: usize, k: Words) -> Judged
    requires { (row ≤ 64) × (column ≤ 64) }
    ensures { result ≡ named (five_cases r c row column k.0) k.0 }
{
    let word = 4 * row + column / 16;
    let (case, place, bit) = match (r, c) {
        (0, 0) => (Case::Sound, 0, 0),
        (1, 0) => (Case::ParityBit, row / 16, bit_of(row)),
        (0, 1) => (Case::ParityBit, 4 + column / 16, bit_of(column)),
        (1, 1) if word < k.0 => (Case::DataBit, word, bit_of(column)),
        _ => return refused(refusal::PARITY),
    };
    accept(case, Words(place), bit, k)
}

// What stands in a unit, without its data. The library has no `From` of a `u32` for `usize`, so `as` stands there.
#[inline(always)]
pub fn judge_unit(unit: &[u16]) -> Judged
    ensures { result ≡ judge_reply unit.now }
{
    let n = unit.len();
    if n <= PARITY.0 || UNIT.0 < n {
        return refused(refusal::LENGTH);
    }
    let stated = parity_rows::stated(unit);
    let found = parity_rows::parity(&unit[PARITY.0..]);
    let rows = stated.rows ^ found.rows;
    let columns = stated.columns ^ found.columns;
    five_cases(
        rows.count_ones(),
        columns.count_ones(),
        rows.leading_zeros() as usize,
        columns.leading_zeros() as usize,
        Words(n - PARITY.0),
    )
}

// The checker's reply.
fn look(unit: &[u16], room: Words) -> Judged
    ensures { result ≡ check_reply unit.now room.0 }
{
    let r = judge_unit(unit);
    if r.refusal != 0 {
        return r;
    }
    if room.0 < r.length.0 {
        return refused(refusal::ROOM);
    }
    r
}

// A unit's data to the room, repaired where a data bit was hit.
pub fn check_unit(unit: &[u16], room: &mut [u16]) -> Judged
    ensures value { result ≡ check_reply unit.now (length room.old) }
    ensures room_after { room.new ≡ check_room unit.now room.old }
{
    let r = look(unit, Words(room.len()));
    if r.refusal != 0 {
        return r;
    }
    base_room::put(&unit[PARITY.0..], room, 0);
    if r.case == Case::DataBit {
        room[r.word.0] ^= 1 << r.bit;
    }
    r
}

// The writer's reply.
#[tactic(auto, unfolding(crate::specs::Unit::write_verdict, crate::specs::Unit::write_reply))]
fn plan(data: &[u16], room: Words) -> Written
    ensures { result ≡ write_reply (length «data».now) room.0 }
{
    let k = data.len();
    refusal::settle(
        refusal::cause(
            refusal::LENGTH,
            !(1..=DATA.0).contains(&k),
            refusal::cause(refusal::ROOM, room.0 < PARITY.0 + k, 0),
        ),
        Words(PARITY.0 + k),
    )
}

// The unit of the data to the room: the parity words, then the data.
pub fn write_unit(data: &[u16], room: &mut [u16]) -> Written
    ensures value { result ≡ write_reply (length «data».now) (length room.old) }
    ensures room_after { room.new ≡ write_room «data».now room.old }
{
    let r = plan(data, Words(room.len()));
    if r.refusal != 0 {
        return r;
    }
    let parity = parity_rows::parity_words(data);
    base_room::put_joined(&parity, data, room);
    r
}
