// The lines of a tally, and what is told on standard error of a file that is not taken.
use program_files::{NAME, Unheard};
use program_output::{ERROR, Out, Printer};
use std::env::{Env, FillError};
use tally_counts::Tally;

// The thirty numbers, one to a line. No `From` makes a `usize` of a `u32`.
pub fn numbers(out: &mut Printer, tally: Tally) {
    for n in tally_counts::numbers(tally) {
        out.number(n as usize).text(b"\n");
    }
}

// The name of the file that an argument names. One that is too long for any file is told by its first bytes.
fn name(out: &mut Printer, argument: usize) {
    let mut name = [0u8; NAME.0];
    match out.rt.arg(argument, &mut name) {
        Ok(length) => out.text(&name[..length]),
        Err(FillError::TooLong) => out.text(&name),
        Err(FillError::NotPresent) => out,
    };
}

// Why a file is not taken, after its name.
pub fn not_taken(rt: HostRuntime, argument: usize, why: Unheard) {
    let mut out = Printer {
        rt,
        out: Out::to(ERROR),
    };
    out.text(b"tally: ");
    name(&mut out, argument);
    out.text(b": ");
    match why {
        Unheard::Unreadable => {
            out.text(b"cannot be read\n");
        }
        Unheard::Refused(refusal) => out.refused(refusal),
    }
    let _ = out.flush();
}
