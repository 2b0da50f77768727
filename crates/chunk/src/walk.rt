// The walk over the listed chunks: each is searched for from the place past the one before.
ghost use Rattle.std.specs.Prelude.{◌-◌, length};
ghost use Rattle.std.specs.Iterator.{at_most};
ghost use Rattle.chunk.specs.Walk.{chunks_step};

use crate::{Entry, search};
use base::Words;

// The chunks of some words, from a place on. Calls take words and sync word apart: the two keep no rule that a type could hold, C hands both over, a frame is
// measured over parts of the words, and two recordings are compared under one sync word, where two pairs could differ and no call refuses that.
#[derive(Drop)]
pub struct Chunks<'a> {
    pub words: &'a [u16],
    pub sync: u16,
    pub at: Words,
}

impl<'a> Iterator for Chunks<'a> {
    type Item = (Entry, Words);

    ghost next_gives = { chunks_step };

    ghost remaining = { λ s. at_most (length s.words.now - s.at.0) };

    #[tactic(auto, using(crate::proofs::Steps::stepped_past))]
    fn next(&mut self) -> Option<(Entry, Words)> {
        let (entry, past) = search::next(self.words, self.sync, self.at)?;
        self.at = past;
        Some((entry, past))
    }
}
