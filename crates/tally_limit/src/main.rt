// The tally at its limit, which no files reach. It reads the recording that its argument names, and adds it to tallies near the limit: in each place alone,
// then in all. For each it writes what is answered, the refusal number and the thirty numbers.
#![tactic(auto)]

use program_files::{ROOM, WORDS};
use program_output::{OUTPUT, Out, Printer};
use tally_counts::{Counted, NUMBERS};

// The line of an answer. No `From` makes a `usize` of a `u32`.
fn line(out: &mut Printer, answer: Counted) {
    out.number(usize::from(answer.refusal));
    for n in tally_counts::numbers(answer.tally) {
        out.text(b" ").number(n as usize);
    }
    out.text(b"\n");
}

// The line of these numbers with a recording more.
fn added(out: &mut Printer, numbers: [u32; NUMBERS], recording: &[u16], sync: u16) {
    let tally = tally_counts::from_numbers(numbers);
    line(out, tally_counts::added(tally, recording, sync));
}

// Two lines for each place alone: with the number that reaches the largest, and with one more.
fn places(out: &mut Printer, near: [u32; NUMBERS], recording: &[u16], sync: u16) {
    for (place, n) in near.iter().enumerate() {
        for number in [*n, n.wrapping_add(1)] {
            let mut numbers = [0u32; NUMBERS];
            numbers[place] = number;
            added(out, numbers, recording, sync);
        }
    }
}

// The recording alone, each place alone, then all places at once: just at the limit, past it, and with a recording that is too long, as 1 comes before 7.
fn lines(out: &mut Printer, recording: &[u16], sync: u16) {
    let too_long = [0u16; WORDS.0];
    let one = tally_counts::added(tally_counts::empty(), recording, sync);
    let near = tally_counts::numbers(one.tally).map(|n| u32::MAX - n);
    line(out, one);
    places(out, near, recording, sync);
    added(out, near, recording, sync);
    added(out, [u32::MAX; NUMBERS], recording, sync);
    added(out, [u32::MAX; NUMBERS], &too_long, sync);
}

fn main(rt: HostRuntime) {
    let mut bytes = [0u8; ROOM.0];
    let mut words = [0u16; WORDS.0];
    let Ok(end) = program_files::hear(rt, 1, &mut bytes, &mut words) else {
        return program_output::complain(rt, b"tally_limit: the recording cannot be taken\n");
    };
    let mut out = Printer {
        rt,
        out: Out::to(OUTPUT),
    };
    lines(&mut out, &words[1..end.0], words[0]);
    if out.flush().is_err() {
        program_output::complain(rt, b"tally_limit: standard output cannot be written\n");
    }
}
