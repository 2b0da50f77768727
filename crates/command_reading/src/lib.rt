// A command, read by one of two catalogues.
#![tactic(auto)]

ghost use Rattle.std.specs.Prelude.{◌≡◌, false, ◌≤◌, length};
ghost use Rattle.base.specs.Refusal.{verdict};
ghost use Rattle.command_catalogue.specs.Rules.{asked_wrong};
ghost use Rattle.command.specs.Layout.{least_bytes};
ghost use Rattle.command_reading.specs.Reading.{packet_causes, given, read_reply, further_reply};

use base::{Bytes, refusal};
use command::{Fields, HEAD, ID, LEAST};
use command_catalogue::{asked_wrong, judge};
use space_packet::{crc_wrong, header_wrong};

// The reader's reply: the fields and the number of further bytes. A refusal has its number and zeros: `Demand1` says so of this answer, so it is no Result.
#[derive(Clone, Copy)]
pub struct Command {
    pub refusal: u8,
    pub fields: Fields,
    pub further: Bytes,
}

// The reply where a verdict is found.
#[tactic(auto, unfolding(crate::specs::Reading::given, base::specs::Refusal::answer))]
fn give(verdict: u8, fields: Fields, further: Bytes) -> Command
    ensures { result ≡ given «verdict» fields further.0 }
{
    if verdict == 0 {
        return Command {
            refusal: 0,
            fields,
            further,
        };
    }
    Command {
        refusal: verdict,
        fields: Fields::default(),
        further: Bytes(0),
    }
}

// The verdict on a packet of a permitted length, in a catalogue and a mode that there are: its header, its CRC, then its fields and further bytes.
// The number is the answer's (`Demand1`).
fn inspect(catalogue: u8, mode: u8, fields: Fields, bytes: &[u8]) -> u8
    requires { (asked_wrong catalogue mode ≡ false) × (least_bytes ≤ length bytes.now) }
    ensures { result ≡ verdict (packet_causes catalogue mode fields bytes.now) }
{
    let start = HEAD.0;
    let end = bytes.len() - 2;
    let others = judge(
        catalogue,
        mode,
        fields.command_type,
        fields.qualifier,
        fields.address,
        fields.data,
        &bytes[start..end],
    );
    refusal::cause(
        refusal::HEADER,
        header_wrong(ID, bytes),
        refusal::cause(refusal::CRC, crc_wrong(bytes), others),
    )
}

// A command's fields, and how many further bytes it has.
#[tactic(auto, using(crate::proofs::Replies::reader))]
pub fn read(catalogue: u8, mode: u8, bytes: &[u8]) -> Command
    ensures { result ≡ read_reply catalogue mode bytes.now }
{
    let fields = command::fields_in(bytes);
    let n = bytes.len();
    let refused = command::first(asked_wrong(catalogue, mode), catalogue, Bytes(n));
    if refused != 0 {
        return give(refused, fields, Bytes(0));
    }
    let more = n - LEAST.0;
    give(inspect(catalogue, mode, fields, bytes), fields, Bytes(more))
}

// The further bytes of a command, as a part of its bytes; none, and no `Option`, where `read` refuses, which has the number: `Demand1` says so of this answer.
#[tactic(auto, using(crate::proofs::Replies::further_bytes))]
pub fn further(catalogue: u8, mode: u8, bytes: &[u8]) -> &[u8]
    ensures { result.now ≡ further_reply catalogue mode bytes.now }
{
    let reply = read(catalogue, mode, bytes);
    if reply.refusal != 0 {
        return &bytes[..0];
    }
    let first = HEAD.0;
    let last = bytes.len() - 2;
    &bytes[first..last]
}
