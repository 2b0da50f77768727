// Chunks: the header, and the search for the next one.
#![tactic(auto)]

mod confirm;
pub mod header;
pub mod search;
pub mod walk;

use base::Words;

// One listed chunk: where it begins, its header word, and the mark that it ends with the recording. It has no words, since the register is a list of these in
// memory that the caller lends; so a call that looks into a chunk asks that it lies inside the words that stand beside it.
#[derive(Clone, Copy)]
pub struct Entry {
    pub position: Words,
    pub header: u16,
    pub end: bool,
}

// What stands at a place: no chunk, one whose end has a legal header, or one that ends with the recording.
#[derive(Clone, Copy)]
pub enum Check {
    NotAChunk,
    Followed,
    AtEnd,
}
