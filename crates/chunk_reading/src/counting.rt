// The chunks of a recording and the words between them, counted.
ghost use Rattle.std.specs.Prelude.{◌≡◌};
ghost use Rattle.chunk_reading.specs.Counting.{surveyed, refused, count_reply, survey_reply};

use crate::{Counts, Survey};
use base::{Words, limit, refusal};
use chunk::search;

// What is counted, as a survey that refuses nothing.
impl From<Counts> for Survey {
    ghost from_gives = { λ counts survey. survey ≡ surveyed 0 counts.chunks counts.skipped.0 counts.end };

    fn from(counts: Counts) -> Survey {
        Survey {
            refusal: 0,
            chunks: counts.chunks,
            skipped: counts.skipped,
            end: counts.end,
        }
    }
}

pub fn refused(number: u8) -> Survey
    ensures { result ≡ refused number }
{
    Survey {
        refusal: number,
        chunks: 0,
        skipped: Words(0),
        end: false,
    }
}

// The chunks and the skipped words of any words, marked where a chunk ends with them. What is in no listed chunk is skipped, so the loop adds up
// the words of the chunks alone.
pub fn count(words: &[u16], sync: u16) -> Counts
    ensures { result ≡ count_reply sync words.now }
{
    let mut chunks = 0;
    let mut listed = 0;
    let mut end = false;
    for (entry, past) in search::chunks(words, sync) {
        chunks += 1;
        listed += past.0 - entry.position.0;
        end |= entry.end;
    }
    Counts {
        chunks,
        skipped: Words(words.len() - listed),
        end,
    }
}

// The chunks and the skipped words of a recording, marked where a chunk ends with it.
#[tactic(auto, unfolding(base::specs::Refusal::answer))]
pub fn survey(recording: &[u16], sync: u16) -> Survey
    ensures { result ≡ survey_reply sync recording.now }
{
    if limit::too_long(recording) {
        return refused(refusal::LENGTH);
    }
    Survey::from(count(recording, sync))
}
