// The listing of a recording. It reads the sync word and the recording from standard input, and writes the lines of FORMAT, "Listing program"; what they
// say is the library's.
#![tactic(auto)]

mod lines;

use base::{Bytes, Words, limit};
use program_input::{ROOM, WORDS};
use program_output::{OUTPUT, Out, Printer};

// All lines of a recording.
fn list(out: &mut Printer, recording: &[u16], sync: u16) {
    lines::recording(out, recording, sync);
    lines::chunks(out, recording, sync);
    lines::frames_and_strays(out, recording, sync);
    lines::runs(out, recording, sync);
}

// The answer to an input: its first word is the sync word.
fn answer(out: &mut Printer, bytes: &[u8]) {
    let mut words = [0u16; WORDS.0];
    let reply = program_input::words(bytes, limit::LISTING_RECORDING, &mut words);
    if reply.refusal != 0 {
        return out.refused(reply.refusal);
    }
    list(out, &words[1..reply.length.0], words[0]);
}

fn main(rt: HostRuntime) {
    let mut bytes = [0u8; ROOM.0];
    let Ok(count) = program_reading::take(&mut rt.stdin(), &mut bytes) else {
        return program_output::complain(rt, b"listing: standard input cannot be read\n");
    };
    let mut out = Printer {
        rt,
        out: Out::to(OUTPUT),
    };
    answer(&mut out, &bytes[..count.0]);
    if out.flush().is_err() {
        program_output::complain(rt, b"listing: standard output cannot be written\n");
    }
}
