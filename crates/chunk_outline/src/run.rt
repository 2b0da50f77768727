// Runs of chunks. The function of each kind counts one run and hands the rest to the kind that comes next; docs/PROMISES.md names this form. A run is at a
// place where one of its chunks ends.
ghost use Rattle.std.specs.Prelude.{◌≡◌, ◌+◌};
ghost use Rattle.chunk_outline.specs.Within.{Reached, runs_on, RunOn};

use base::Words;
use chunk::walk::Chunks;
use chunk::{Entry, header};

// the kinds, as `header::kind_of` gives them
pub const IMAGE: u16 = 0;

const HEALTH: u16 = 1;

// The chunk that begins the next run, where a run of a kind is at a place: the first chunk that is not adjacent, or is of another kind.
fn next_run(words: &[u16], sync: u16, kind: u16, from: usize) -> Option<(Entry, Words)>
    ensures { RunOn sync words.now kind from result }
{
    let mut end = from;
    let rest = Chunks {
        words,
        sync,
        at: Words(from),
    };
    for (entry, past) in rest {
        let begins = entry.position.0;
        let adjacent = begins == end;
        if !adjacent || header::kind_of(entry.header) != kind {
            return Some((entry, past));
        }
        end = past.0;
    }
    None
}

// Counts the image run that is at a place, and the runs after it. Each call is the last thing done, and is passed numbers and thin references
// alone, so that compiled code runs it in place, however many runs there are.
#[cycle(health_run_image_run)]
pub fn image_run(words: &&[u16], sync: u16, end: usize, image: &mut usize, health: &mut usize)
    requires { Reached words.now.now end (image.old + health.old) }
    ensures image { image.new ≡ image.old + runs_on 0 0 sync words.now.now end }
    ensures health { health.new ≡ health.old + runs_on 1 0 sync words.now.now end }
{
    let found = next_run(*words, sync, IMAGE, end);
    *image += 1;
    if let Some((entry, next)) = found {
        if header::kind_of(entry.header) == IMAGE {
            image_run(words, sync, next.0, image, health);
        } else {
            health_run(words, sync, next.0, image, health);
        }
    }
}

// Counts the health run that is at a place, and the runs after it, in the same way.
#[cycle(health_run_image_run)]
pub fn health_run(words: &&[u16], sync: u16, end: usize, image: &mut usize, health: &mut usize)
    requires { Reached words.now.now end (image.old + health.old) }
    ensures image { image.new ≡ image.old + runs_on 0 1 sync words.now.now end }
    ensures health { health.new ≡ health.old + runs_on 1 1 sync words.now.now end }
{
    let found = next_run(*words, sync, HEALTH, end);
    *health += 1;
    if let Some((entry, next)) = found {
        if header::kind_of(entry.header) == IMAGE {
            image_run(words, sync, next.0, image, health);
        } else {
            health_run(words, sync, next.0, image, health);
        }
    }
}
