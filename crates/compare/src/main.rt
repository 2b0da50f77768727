// Two recordings compared chunk by chunk. It reads the two files that its arguments name, each a sync word and a recording, and writes a line for each pair of
// chunks and one for the chunks that are left over; what they say is the library's.
#![tactic(auto)]

mod lines;

use base::limit;
use chunk::header;
use program_files::{ROOM, Unheard, WORDS, hear};
use program_output::{OUTPUT, Out, Printer, complain};

// the program's own name, and two files
const ARGUMENTS: usize = 3;

// the most pairs: two recordings at the limit, all of them in shortest chunks
const PAIRS: usize = limit::LISTING_RECORDING.0 / header::SHORTEST.0;

// All lines, for two recordings with one sync word. The library has a limit of its own: what it refuses is told.
fn compare(out: &mut Printer, first: &[u16], second: &[u16], sync: u16) {
    let mut list = [0u16; PAIRS];
    let compared = chunk_compare::recordings(first, second, sync, &mut list);
    if compared.refusal != 0 {
        return out.refused(compared.refusal);
    }
    lines::pairs(out, &list[..compared.pairs]);
    lines::left(out, compared);
}

// The answer to two files. Both are read before either is judged, and one that cannot be read is told before one that is refused.
fn answer(out: &mut Printer) {
    let rt = out.rt;
    let mut bytes = [0u8; ROOM.0];
    let mut first = [0u16; WORDS.0];
    let mut second = [0u16; WORDS.0];
    let one = hear(rt, 1, &mut bytes, &mut first);
    let other = hear(rt, 2, &mut bytes, &mut second);
    match (one, other) {
        (Err(Unheard::Unreadable), _) => {
            complain(rt, b"compare: the first file cannot be read\n");
        }
        (_, Err(Unheard::Unreadable)) => {
            complain(rt, b"compare: the second file cannot be read\n");
        }
        (Err(Unheard::Refused(refusal)), _) | (_, Err(Unheard::Refused(refusal))) => {
            out.refused(refusal);
        }
        (Ok(_), Ok(_)) if first[0] != second[0] => {
            complain(rt, b"compare: the files have different sync words\n");
        }
        (Ok(first_end), Ok(second_end)) => {
            compare(
                out,
                &first[1..first_end.0],
                &second[1..second_end.0],
                first[0],
            );
        }
    }
}

fn main(rt: HostRuntime) {
    if program_files::arguments(rt) != ARGUMENTS {
        return complain(rt, b"compare: two files are to be named\n");
    }
    let mut out = Printer {
        rt,
        out: Out::to(OUTPUT),
    };
    answer(&mut out);
    if out.flush().is_err() {
        complain(rt, b"compare: standard output cannot be written\n");
    }
}
