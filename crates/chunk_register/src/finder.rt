// What the register is filled with: the reply, and the entries one after the other.
ghost use Rattle.std.specs.Prelude.{◌≡◌};
ghost use Rattle.chunk_register.specs.Register.{list_reply};
ghost use Rattle.chunk_register.specs.Finder.{step_from};

use base::{Words, refusal};
use chunk::{Entry, search};
use chunk_reading::{Survey, counting};

// A chunk's entry, and the place past the chunk. No `Option`: `list` asks once for each chunk that was counted, so that none is left cannot come there, and an
// `Option` would give its loop an exit that is never taken. Zeros stand for it.
#[derive(Clone, Copy)]
pub struct Step {
    pub entry: Entry,
    pub end: Words,
}

// The reply for a register of so many entries. A recording that is too long has no chunks to make room for.
#[tactic(auto, using(crate::proofs::Replies::too_few_refused, crate::proofs::Replies::enough_surveyed))]
pub fn look(recording: &[u16], sync: u16, entries: usize) -> Survey
    ensures { result ≡ list_reply sync recording.now entries }
{
    let survey = counting::survey(recording, sync);
    if entries < survey.chunks {
        return counting::refused(refusal::ROOM);
    }
    survey
}

// The next chunk at or after a place; zeros and no mark where none is left. docs/PROMISES.md wants `list` thin, over a finder.
#[tactic(auto, unfolding(crate::specs::Finder::step_from, crate::specs::Finder::step_to))]
pub fn step_from(recording: &[u16], sync: u16, at: Words) -> Step
    ensures { result ≡ step_from sync recording.now at.0 }
{
    let Some((entry, end)) = search::next(recording, sync, at) else {
        return Step {
            entry: Entry {
                position: Words(0),
                header: 0,
                end: false,
            },
            end: Words(0),
        };
    };
    Step { entry, end }
}
