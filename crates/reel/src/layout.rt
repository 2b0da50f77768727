// The sizes of what stands on a reel, for its reader and its writer.
use base::{Words, limit};
use chunk::header;

// the words of an entry, and of the trailer
pub const ENTRY: Words = Words(2);

pub const TRAILER: Words = Words(4);

// the last word of a reel
pub const EDITION: u16 = 1;

// the longest reel: a recording at the limit, all of it in shortest chunks; so much room is always enough for the writer
pub const MOST: Words = Words(
    limit::REEL_RECORDING.0 + ENTRY.0 * (limit::REEL_RECORDING.0 / header::SHORTEST.0) + TRAILER.0,
);
