// The tally over recordings. It reads the files that its arguments name, each a sync word and a recording, one after the other, and writes the thirty numbers;
// what they are is the library's.
#![tactic(auto)]

mod lines;

use program_files::{ROOM, Unheard, WORDS};
use program_output::{OUTPUT, Out, Printer};
use tally_counts::Tally;

// The tally with the file that an argument names, or why it is not taken.
fn with_file(rt: HostRuntime, tally: Tally, argument: usize) -> Result<Tally, Unheard> {
    let mut bytes = [0u8; ROOM.0];
    let mut words = [0u16; WORDS.0];
    let end = program_files::hear(rt, argument, &mut bytes, &mut words)?.0;
    let next = tally_counts::added(tally, &words[1..end], words[0]);
    if next.refusal != 0 {
        return Err(Unheard::Refused(next.refusal));
    }
    Ok(next.tally)
}

// The tally over all files. The first argument, the program's own name, is no file. A file that is not taken is told, and the tally stays as it is.
fn over_files(rt: HostRuntime) -> Tally {
    let mut tally = tally_counts::empty();
    for argument in 1..program_files::arguments(rt) {
        match with_file(rt, tally, argument) {
            Ok(next) => tally = next,
            Err(why) => lines::not_taken(rt, argument, why),
        }
    }
    tally
}

fn main(rt: HostRuntime) {
    let tally = over_files(rt);
    let mut out = Printer {
        rt,
        out: Out::to(OUTPUT),
    };
    lines::numbers(&mut out, tally);
    if out.flush().is_err() {
        program_output::complain(rt, b"tally: standard output cannot be written\n");
    }
}
