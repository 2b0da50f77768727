// An asked frame: what it is, whether its data can be had, and its data. Each call starts from the one before it, so a frame is measured once, judged once
// and read once.
#![tactic(auto)]

mod picture;

ghost use Rattle.std.specs.Prelude.{◌≡◌, length, drop};
ghost use Rattle.base.specs.Refusal.{verdict};
ghost use Rattle.parity_units.specs.Replies.{any_touched};
ghost use Rattle.frame.specs.Picture.{frame_units};
ghost use Rattle.frame_reading.specs.Replies.{refused, told, at_causes, at_reply, judge_reply, read_reply, read_room};

use base::{Words, limit, refusal};
use frame::{Description, Piece, pieces};

// The reply of every call here: what is said of a frame; zeros and false where it is refused: `Demand1` says so of it, so it is no Result.
#[derive(Clone, Copy)]
pub struct Frame {
    pub refusal: u8,
    pub camera: u16,
    pub chunks: usize,
    pub complete: bool,
    pub length: Words,
    pub end: bool,
}

// A reply, and whether the data of a unit are not given as they stand: where all are, they are copied without a second look. A refusal
// has its number in the reply, so neither of the two says whether there is the other.
#[derive(Clone, Copy)]
struct Inspected {
    frame: Frame,
    touched: bool,
}

fn untouched(frame: Frame) -> Inspected
    ensures { result.frame ≡ frame }
{
    Inspected {
        frame,
        touched: false,
    }
}

fn refused(number: u8) -> Frame
    ensures { result ≡ refused number }
{
    Frame {
        refusal: number,
        camera: 0,
        chunks: 0,
        complete: false,
        length: Words(0),
        end: false,
    }
}

// What is said of a frame, as a reply that refuses nothing.
impl From<Description> for Frame {
    ghost from_gives = { λ said frame. frame ≡ told said };

    fn from(said: Description) -> Frame {
        Frame {
            refusal: 0,
            camera: said.camera,
            chunks: said.chunks,
            complete: said.complete,
            length: said.length,
            end: said.end,
        }
    }
}

// The refusal number for a place of a recording. It is the answer's (`Demand1`). Recording,
// sync word and place are taken apart, as `chunk::walk::Chunks` says of the first two.
#[tactic(auto, using(crate::proofs::Asking::listed_inside))]
fn find(recording: &[u16], sync: u16, place: Words) -> u8
    ensures { result ≡ verdict (at_causes sync recording.now place.0) }
{
    if limit::too_long(recording) {
        return refusal::LENGTH;
    }
    if !chunk_reading::place::is_listed(recording, sync, place) {
        return refusal::NOTHING_THERE;
    }
    let begins = place.0;
    refusal::cause(
        refusal::NOTHING_THERE,
        !frame::starts(recording[begins + 1]),
        0,
    )
}

// What the frame at a place is, complete or cut: the first piece of the words from there on.
#[tactic(auto, using(crate::proofs::Asking::at_refused, crate::proofs::Asking::at_given, crate::proofs::Asking::no_stray, crate::proofs::Asking::no_end, crate::proofs::Asking::place_inside))]
pub fn at(recording: &[u16], sync: u16, place: Words) -> Frame
    ensures { result ≡ at_reply sync recording.now place.0 }
{
    let verdict = find(recording, sync, place);
    if verdict != 0 {
        return refused(verdict);
    }
    let from = place.0;
    let piece = pieces::next(&recording[from..], sync, Words(0));
    match piece {
        Some(Piece::Frame(_, said, _)) => Frame::from(said),
        _ => refused(refusal::NOTHING_THERE),
    }
}

// Whether the frame's data can be had, and whether some of them are touched.
#[tactic(auto, using(crate::proofs::Asking::judge_kept, crate::proofs::Asking::judged_inside, crate::proofs::Asking::chunks_within, crate::proofs::Asking::cut, crate::proofs::Asking::damaged, crate::proofs::Asking::undamaged, crate::proofs::Asking::harm_here, crate::proofs::Asking::touched_here, crate::proofs::Asking::refused_not))]
fn inspect(recording: &[u16], sync: u16, place: Words) -> Inspected
    ensures frame_value { result.frame ≡ judge_reply sync recording.now place.0 }
    ensures touched_value { result.frame.refusal ≡ 0 → result.touched ≡ any_touched (frame_units sync (drop place.0 recording.now)) }
{
    let frame = at(recording, sync, place);
    if frame.refusal != 0 {
        return untouched(frame);
    }
    if !frame.complete {
        return untouched(refused(refusal::FRAME_CUT));
    }
    let begins = place.0;
    let harm = picture::inspect(&recording[begins..], frame.chunks);
    if harm.damaged {
        return untouched(refused(refusal::PARITY));
    }
    Inspected {
        frame,
        touched: harm.touched,
    }
}

// Whether the frame's data can be had: it is complete, and no unit of it is refused.
pub fn judge(recording: &[u16], sync: u16, place: Words) -> Frame
    ensures { result ≡ judge_reply sync recording.now place.0 }
{
    inspect(recording, sync, place).frame
}

// The reader's reply, for a room of so many words.
#[tactic(auto, using(crate::proofs::Asking::look_kept, crate::proofs::Asking::when_too_small, crate::proofs::Asking::enough))]
fn look(recording: &[u16], sync: u16, place: Words, room: Words) -> Inspected
    ensures frame_value { result.frame ≡ read_reply sync recording.now place.0 room.0 }
    ensures touched_value { result.frame.refusal ≡ 0 → result.touched ≡ any_touched (frame_units sync (drop place.0 recording.now)) }
{
    let inspected = inspect(recording, sync, place);
    let frame = inspected.frame;
    if frame.refusal != 0 {
        return inspected;
    }
    if room.0 < frame.length.0 {
        return untouched(refused(refusal::ROOM));
    }
    inspected
}

// The frame's data to the room.
#[tactic(auto, using(crate::proofs::Asking::untouched, crate::proofs::Asking::read_inside, crate::proofs::Asking::read_untouched, crate::proofs::Asking::words_ready, crate::proofs::Asking::room_ready, crate::proofs::Asking::written))]
pub fn read(recording: &[u16], sync: u16, place: Words, room: &mut [u16]) -> Frame
    ensures value { result ≡ read_reply sync recording.now place.0 (length room.old) }
    ensures room_after { room.new ≡ read_room sync recording.now place.0 room.old }
{
    let looked = look(recording, sync, place, Words(room.len()));
    let frame = looked.frame;
    if frame.refusal != 0 {
        return frame;
    }
    let start = place.0;
    picture::data(&recording[start..], frame.chunks, looked.touched, room);
    frame
}
