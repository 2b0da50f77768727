// The units of a payload, which splits into units of 264 words, the last one possibly shorter. Every function takes a payload of any length: a last part
// that is too short for a unit is refused by the unit judge, and has no data.
#![tactic(auto)]

ghost use Rattle.std.specs.Prelude.{◌≡◌, ◌+◌, length, drop, leb, ltb};
ghost use Rattle.base.specs.Size.{parity_width};
ghost use Rattle.parity_units.specs.Split.{units_in, any_damaged, data_words_in};
ghost use Rattle.parity_units.specs.Replies.{join_reply, join_room, copy_reply, copy_room, outcome_of, outcomes, harm_to};

use base::size::{DATA, PARITY, UNIT};
use base::{Words, refusal};
use parity::{Case, Judged};

// How many units there are of each outcome.
#[derive(Clone, Copy)]
pub struct Outcomes {
    pub sound: usize,
    pub hit: usize,
    pub repaired: usize,
    pub refused: usize,
}

// What is found of all units of a payload: whether one is refused with 6, and whether the data of one are not given as they stand, for it is refused or
// a data bit of it was hit.
#[derive(Clone, Copy)]
pub struct Harm {
    pub damaged: bool,
    pub touched: bool,
}

// The data words of a payload of n words.
pub fn data_words(n: Words) -> Words
    ensures { result.0 ≡ data_words_in n.0 }
{
    let whole = n.0 / UNIT.0 * DATA.0;
    let last = n.0 % UNIT.0;
    Words(whole + last.saturating_sub(PARITY.0))
}

// Whether the data of a unit are not given as they stand.
fn is_touched(unit: Judged) -> bool
    ensures { result ≡ ltb 1 (outcome_of unit) }
{
    unit.refusal != 0 || unit.case == Case::DataBit
}

// Whether a unit of the payload is refused with 6, and whether the data of one are not given as they stand.
pub fn inspect(payload: &[u16]) -> Harm
    ensures { result ≡ harm_to (units_in payload.now) }
{
    let mut harm = Harm {
        damaged: false,
        touched: false,
    };
    for unit in payload.chunks(UNIT.0) {
        let judged = parity::judge_unit(unit);
        harm.damaged |= judged.refusal == refusal::PARITY;
        harm.touched |= is_touched(judged);
    }
    harm
}

// Whether a unit of the payload is refused with 6.
pub fn damaged(payload: &[u16]) -> bool
    ensures { result ≡ any_damaged (units_in payload.now) }
{
    inspect(payload).damaged
}

// Whether a room of so many words has room for the data of a payload of n words, from a place on.
fn fits(n: Words, place: Words, room: Words) -> bool
    ensures { result ≡ leb (place.0 + data_words_in n.0) room.0 }
{
    let most = data_words(n).0;
    most <= room.0 && place.0 <= room.0 - most
}

// The data of the payload's accepted units, joined, to a place of the room, where it has room for the data of all units; the number of words written.
pub fn join(payload: &[u16], room: &mut [u16], place: Words) -> Words
    ensures result_value { result.0 ≡ join_reply payload.now place.0 (length room.old) }
    ensures room_after { room.new ≡ join_room payload.now place.0 room.old }
{
    if !fits(Words(payload.len()), place, Words(room.len())) {
        return Words(0);
    }
    let mut to = place.0;
    for unit in payload.chunks(UNIT.0) {
        let checked = parity::check_unit(unit, &mut room[to..]);
        to += checked.length.0;
    }
    Words(to - place.0)
}

// The words after the parity words of a unit.
fn data_of(unit: &[u16]) -> &[u16]
    ensures { result.now ≡ drop parity_width unit.now }
{
    unit.get(PARITY.0..).unwrap_or(&[])
}

// The data of the payload's units as they stand, joined, in the same way: what `join` gives where `inspect` says that no data were touched. The walk of both is
// `chunks`; one function over what is done with a unit would be longer: it needs a trait whose laws say which words a unit gives, with an impl for each.
pub fn copy(payload: &[u16], room: &mut [u16], place: Words) -> Words
    ensures result_value { result.0 ≡ copy_reply payload.now place.0 (length room.old) }
    ensures room_after { room.new ≡ copy_room payload.now place.0 room.old }
{
    if !fits(Words(payload.len()), place, Words(room.len())) {
        return Words(0);
    }
    let mut past = place.0;
    for unit in payload.chunks(UNIT.0) {
        let data = data_of(unit);
        base_room::put(data, room, past);
        past += data.len();
    }
    Words(past - place.0)
}

// The payload's units, counted by outcome.
pub fn count(payload: &[u16]) -> Outcomes
    ensures { result ≡ outcomes (units_in payload.now) }
{
    let mut counted = Outcomes {
        sound: 0,
        hit: 0,
        repaired: 0,
        refused: 0,
    };
    for unit in payload.chunks(UNIT.0) {
        let judged = parity::judge_unit(unit);
        match (judged.refusal, judged.case) {
            (0, Case::Sound) => counted.sound += 1,
            (0, Case::ParityBit) => counted.hit += 1,
            (0, Case::DataBit) => counted.repaired += 1,
            _ => counted.refused += 1,
        }
    }
    counted
}
