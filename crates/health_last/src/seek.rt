// The search for a packet, in a row of packets, in a chunk and in a science recording.
ghost use Rattle.std.specs.Prelude.{◌≡◌, ◌+◌, ◌*◌, ◌<◌, ◌≤◌, length};
ghost use Rattle.base.specs.Size.{packet_width};
ghost use Rattle.chunk.specs.Header.{span};
ghost use Rattle.health_places.specs.Packets.{packet_places, chunk_places};
ghost use Rattle.health_last.specs.Packets.{last_where};
ghost use Rattle.health_last.specs.Seek.{wanted, Answers, Decided};

use crate::Marked;
use base::Words;
use base::size::PACKET;
use chunk::{Entry, header, search};
use health::packet;

// Whether a packet of the type stands at a place: any, or a sound one. The CRC is computed only where the type is the asked one.
// The type and `any` stay two parameters: a struct of them would be built at each of the four calls, and passed on twice.
#[tactic(auto, using(crate::proofs::seek::Seeking::wanted_at))]
fn is_of(words: &[u16], packet_type: u16, any: bool, at: Words) -> bool
    requires { at.0 < length words.now }
    ensures { result ≡ wanted words.now packet_type any at.0 }
{
    words[at.0] == packet_type && (any || packet::sound_at(words, at))
}

// The last packet of the type, any or sound, among `count` packets back to back, from the back. By place: a place is the answer and what `is_of` judges, and
// over the packets themselves (`as_chunks`) their number would be made a place again.
pub fn in_row(
    words: &[u16],
    packet_type: u16,
    any: bool,
    from: Words,
    count: usize,
) -> Option<Words>
    requires { from.0 + packet_width * count ≤ length words.now }
    ensures { result ≡ last_where (wanted words.now packet_type any) (packet_places count from.0) }
{
    for k in (0..count).rev() {
        let at = Words(from.0 + PACKET.0 * k);
        if is_of(words, packet_type, any, at) {
            return Some(at);
        }
    }
    None
}

// The last packet of the type, any or sound, in a chunk.
#[tactic(auto, using(crate::proofs::seek::Seeking::chunk_row))]
fn in_chunk(words: &[u16], packet_type: u16, any: bool, chunk: Entry) -> Option<Words>
    requires { chunk.position.0 + span chunk.header ≤ length words.now }
    ensures { result ≡ last_where (wanted words.now packet_type any) (chunk_places chunk) }
{
    if header::kind_of(chunk.header) != 1 {
        return None;
    }
    in_row(
        words,
        packet_type,
        any,
        Words(chunk.position.0 + header::HEADER.0),
        header::size_of(chunk.header).0 / PACKET.0,
    )
}

// The last sound packet of the type in the listed health chunks, with the mark of its chunk: every chunk's last is looked for.
fn in_chunks(words: &[u16], sync: u16, packet_type: u16) -> Option<Marked>
    ensures { Answers sync words.now packet_type result }
{
    search::chunks(words, sync).fold(None, |last, (chunk, _)| {
        match in_chunk(words, packet_type, false, chunk) {
            Some(at) => Some(Marked { at, end: chunk.end }),
            None => last,
        }
    })
}

// The last listed chunk that holds a packet of the type, sound or not. No CRC is computed. A fold like that of `in_chunks`: one keeps a place and its mark, the
// other the chunk, and each says so in a contract of its own (`Answers`, `Decided`), so one function for both would be longer.
fn last_holder(words: &[u16], sync: u16, packet_type: u16) -> Option<Entry>
    ensures { Decided sync words.now packet_type result }
{
    search::chunks(words, sync).fold(None, |last, (chunk, _)| {
        match in_chunk(words, packet_type, true, chunk) {
            Some(_) => Some(chunk),
            None => last,
        }
    })
}

// The last sound packet of the type in the listed health chunks, with the mark of its chunk. It stands in the last chunk that holds
// the type, unless all of the type there are damaged: only then is every chunk looked at.
pub fn in_science(words: &[u16], sync: u16, packet_type: u16) -> Option<Marked>
    ensures { Answers sync words.now packet_type result }
{
    let holder = last_holder(words, sync, packet_type)?;
    match in_chunk(words, packet_type, false, holder) {
        Some(at) => Some(Marked {
            at,
            end: holder.end,
        }),
        None => in_chunks(words, sync, packet_type),
    }
}
