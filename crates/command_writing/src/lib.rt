// A command, written by one of two catalogues.
#![tactic(auto)]

ghost use Rattle.std.specs.Prelude.{◌≡◌, ◌≤◌, ◌<◌, length};
ghost use Rattle.space_packet.specs.Layout.{laid};
ghost use Rattle.space_packet.specs.Header.{sequence_counts};
ghost use Rattle.command.specs.Layout.{least_bytes, widths, head_of};
ghost use Rattle.command_writing.specs.Writing.{write_reply, write_room};

use base::{Bytes, refusal};
use command::{Fields, HEAD, ID, LEAST};
use command_catalogue::{asked_wrong, judge};
use space_packet::{LENGTH_LESS, SEQUENCE_COUNTS, SEQUENCE_TOP, Sent, put_sealed, settle};

// The reply, before anything is written.
#[tactic(auto, using(crate::proofs::Replies::planned))]
fn plan(catalogue: u8, mode: u8, fields: Fields, further: &[u8], room: Bytes) -> Sent
    ensures { result ≡ write_reply catalogue mode fields further.now room.0 }
{
    let total = LEAST.0 + further.len();
    let count = fields.sequence < SEQUENCE_COUNTS;
    let asked = asked_wrong(catalogue, mode) || !count;
    let refused = command::first(asked, catalogue, Bytes(total));
    if refused != 0 {
        return settle(refused, Bytes(0));
    }
    let judged = judge(
        catalogue,
        mode,
        fields.command_type,
        fields.qualifier,
        fields.address,
        fields.data,
        further,
    );
    if judged != 0 {
        return settle(judged, Bytes(0));
    }
    settle(
        refusal::cause(refusal::ROOM, room.0 < total, 0),
        Bytes(total),
    )
}

// The head of a command of so many bytes. `as`, since their number is asked to fit.
#[tactic(auto, using(space_packet::proofs::Bytes::word_sent))]
fn head(fields: Fields, total: Bytes) -> [u8; HEAD.0]
    requires { (fields.sequence < sequence_counts) × (least_bytes ≤ total.0) × (total.0 < 65536) }
    ensures { result ≡ laid widths (head_of total.0 fields) }
{
    let sequence = SEQUENCE_TOP * SEQUENCE_COUNTS + fields.sequence;
    let size = (total.0 - LENGTH_LESS.0) as u16;
    let mut bytes = [0; HEAD.0];
    bytes[..2].copy_from_slice(&ID.to_be_bytes());
    bytes[2..4].copy_from_slice(&sequence.to_be_bytes());
    bytes[4..6].copy_from_slice(&size.to_be_bytes());
    bytes[6] = fields.command_type;
    bytes[7] = fields.qualifier;
    bytes[8..10].copy_from_slice(&fields.address.to_be_bytes());
    bytes[10..].copy_from_slice(&fields.data.to_be_bytes());
    bytes
}

// A command into lent room.
#[tactic(auto, using(crate::proofs::Replies::writer))]
pub fn write(catalogue: u8, mode: u8, fields: Fields, further: &[u8], room: &mut [u8]) -> Sent
    ensures value { result ≡ write_reply catalogue mode fields further.now (length room.old) }
    ensures room_after { room.new ≡ write_room catalogue mode fields further.now room.old }
{
    let sent = plan(catalogue, mode, fields, further, Bytes(room.len()));
    if sent.refusal != 0 {
        return sent;
    }
    let front = head(fields, Bytes(LEAST.0 + further.len()));
    put_sealed(&front, further, room);
    sent
}
