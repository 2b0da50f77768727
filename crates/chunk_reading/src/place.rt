// One chunk of a recording, by its place.
ghost use Rattle.std.specs.Prelude.{◌≡◌};
ghost use Rattle.base.specs.Refusal.{verdict};
ghost use Rattle.chunk.specs.Reading.{listed_at};
ghost use Rattle.chunk_reading.specs.Place.{refused, at_causes, heading_of, at_reply, payload_reply};

use crate::Heading;
use base::{Words, limit, refusal};
use chunk::{header, search};

// Whether a chunk is listed at a place: the reading is followed up to it, and no further, as `any` over the chunks would.
pub fn is_listed(words: &[u16], sync: u16, place: Words) -> bool
    ensures { result ≡ listed_at sync words.now place.0 }
{
    let asked = place.0;
    for (entry, past) in search::chunks(words, sync) {
        let begins = entry.position.0;
        if asked <= begins {
            return asked == begins;
        }
        if asked < past.0 {
            return false;
        }
    }
    false
}

// The refusal number for a place of a recording. It is the answer's (`Demand1`).
fn judge(recording: &[u16], sync: u16, place: Words) -> u8
    ensures { result ≡ verdict (at_causes sync recording.now place.0) }
{
    if limit::too_long(recording) {
        return refusal::LENGTH;
    }
    refusal::cause(
        refusal::NOTHING_THERE,
        !is_listed(recording, sync, place),
        0,
    )
}

fn refused(number: u8) -> Heading
    ensures { result ≡ refused number }
{
    Heading {
        refusal: number,
        kind: 0,
        camera: 0,
        size: Words(0),
        end: false,
    }
}

// The fields of a header word, with the mark.
fn heading_of(word: u16, end: bool) -> Heading
    ensures { result ≡ heading_of word end }
{
    Heading {
        refusal: 0,
        kind: header::kind_of(word),
        camera: header::camera_of(word),
        size: header::size_of(word),
        end,
    }
}

// The chunk listed at a place, marked where the place past it is the recording's end.
#[tactic(auto, using(crate::proofs::place::Answers::refused_at, crate::proofs::place::Answers::accepted_within, crate::proofs::place::Answers::accepted_at))]
pub fn at(recording: &[u16], sync: u16, place: Words) -> Heading
    ensures { result ≡ at_reply sync recording.now place.0 }
{
    let begins = place.0;
    let verdict = judge(recording, sync, place);
    if verdict != 0 {
        return refused(verdict);
    }
    let word = recording[begins + 1];
    let past = begins + header::HEADER.0 + header::size_of(word).0;
    heading_of(word, past == recording.len())
}

// The payload of the chunk listed at a place, as a part of the recording; empty, and no `Option`, where `at` refuses, which has the number:
// `Demand1` says so of this answer.
#[tactic(auto, using(crate::proofs::place::Answers::at_number, crate::proofs::place::Answers::refused_payload, crate::proofs::place::Answers::accepted_within, crate::proofs::place::Answers::accepted_size, crate::proofs::place::Answers::accepted_payload))]
pub fn payload(recording: &[u16], sync: u16, place: Words) -> &[u16]
    ensures { result.now ≡ payload_reply sync recording.now place.0 }
{
    let begins = place.0;
    let chunk = at(recording, sync, place);
    if chunk.refusal != 0 {
        return &recording[..0];
    }
    let from = begins + header::HEADER.0;
    let to = from + chunk.size.0;
    &recording[from..to]
}
