// The reading of a recording: its chunks counted, and one of them by its place.
#![tactic(auto)]

pub mod counting;
pub mod place;

use base::Words;

// The chunks of words, the words inside none of them, and the mark that one of the chunks ends with the words.
#[derive(Clone, Copy)]
pub struct Counts {
    pub chunks: usize,
    pub skipped: Words,
    pub end: bool,
}

// What a survey of a recording answers: the same, and the number of a refusal. A refusal has its number and zeros: `Demand1` says so of this answer, so it
// is no Result.
#[derive(Clone, Copy)]
pub struct Survey {
    pub refusal: u8,
    pub chunks: usize,
    pub skipped: Words,
    pub end: bool,
}

// What stands in the header of a listed chunk, and the mark that it ends with the recording. A refusal has its number and zeros: `Demand1` says so of this
// answer, so it is no Result.
#[derive(Clone, Copy)]
pub struct Heading {
    pub refusal: u8,
    pub kind: u16,
    pub camera: u16,
    pub size: Words,
    pub end: bool,
}
