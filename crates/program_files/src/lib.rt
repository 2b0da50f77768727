// A program's input: the bytes of a file that an argument names, and the words that they are.
#![tactic(auto)]

ghost use Rattle.std.specs.Prelude.{ℕ, ◌≡◌, ◌≤◌, length, IfErr, IfOk, IfSome};
ghost use Rattle.io.specs.Counts.{IsPrefixLen};
ghost use Rattle.program_files.specs.declared.Unheard.TheVariants.{Refused};

use base::{Bytes, Words, limit};
pub use program_input::{ROOM, WORDS};
use std::env::{Env, FillError};
use std::fs::File;

// room for the longest name that a file can have
pub const NAME: Bytes = Bytes(4096);

// Why a file gives no words: it cannot be read, or it is refused with a number.
#[derive(Clone, Copy, Debug, PartialEq, Eq)]
pub enum Unheard {
    Unreadable,
    Refused(u8),
}

// How many arguments there are, the program's own name among them. They are asked for one by one: `std::env::args` would need a heap.
pub fn arguments(rt: HostRuntime) -> usize {
    for i in 0..usize::MAX {
        if let Err(FillError::NotPresent) = rt.arg(i, &mut []) {
            return i;
        }
    }
    usize::MAX
}

// Reads the file whose name is the argument with this number, and how many bytes came. No file is named by an argument that is missing, too long or no text in
// UTF-8. Whether closing fails is not asked: it takes nothing back of what was read.
pub fn file(rt: HostRuntime, argument: usize, room: &mut [u8]) -> Option<Bytes>
    ensures { IfSome result (λ count. IsPrefixLen count.0 room.new) }
{
    let mut name = [0u8; NAME.0];
    let length = rt.arg(argument, &mut name).ok()?;
    let path = str::from_utf8(&name[..length]).ok()?;
    let mut opened = File::open(&rt, path).ok()?;
    program_reading::take(&mut opened, room).ok()
}

// The words of the file that an argument names, and where they end: there is a sync word.
#[tactic(auto, using(program_input::proofs::Joining::accepted))]
pub fn hear(
    rt: HostRuntime,
    argument: usize,
    bytes: &mut [u8],
    words: &mut [u16; WORDS.0],
) -> Result<Words, Unheard>
    ensures bound { IfOk result (λ end. 1 ≤ end.0) }
    ensures end_in_bounds { IfOk result (λ end. end.0 ≤ length words.new) }
    ensures number { IfErr result (λ why. (n : ℕ) → why ≡ Refused n → 1 ≤ n) }
{
    let count = file(rt, argument, bytes).ok_or(Unheard::Unreadable)?.0;
    let reply = program_input::words(&bytes[..count], limit::LISTING_RECORDING, words);
    if reply.refusal != 0 {
        return Err(Unheard::Refused(reply.refusal));
    }
    Ok(reply.length)
}
