// What every other crate stands on: the two kinds of count, sizes and limits, the refusal numbers, and the parts of a word.
#![tactic(auto)]

pub mod limit;
pub mod number;
pub mod refusal;
pub mod size;

// A number of 16-bit words, or a place among them: camera sizes and positions.
#[derive(Clone, Copy)]
pub struct Words(pub usize);

// A number of bytes, or a place among them: command lengths.
#[derive(Clone, Copy)]
pub struct Bytes(pub usize);

// The reply of every writer of words: the words written, 0 on a refusal. That has its number and zeros, as `Demand1` says of the writers, so this is no Result.
// `space_packet::Sent` counts bytes in the same way. One struct over both counts would be no plainer: its `settle` would need a trait for the zero of a count.
#[derive(Clone, Copy)]
pub struct Written {
    pub refusal: u8,
    pub length: Words,
}
