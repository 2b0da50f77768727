// The outline of a recording: the number of image runs and of health runs.
#![tactic(auto)]

mod run;

ghost use Rattle.std.specs.Prelude.{◌≡◌};
ghost use Rattle.chunk_outline.specs.Outline.{refused, outline_reply};

use base::{Words, limit, refusal};
use chunk::{header, search};

// The reply: the number of runs of each kind. A refusal has its number and zeros: `Demand1` says so of this answer, so it is no Result.
#[derive(Clone, Copy)]
pub struct Runs {
    pub refusal: u8,
    pub image: usize,
    pub health: usize,
}

fn refused(number: u8) -> Runs
    ensures { result ≡ refused number }
{
    Runs {
        refusal: number,
        image: 0,
        health: 0,
    }
}

// Counts the runs of a recording: the kind of its first chunk begins, and each kind hands the rest on.
pub fn outline(recording: &[u16], sync: u16) -> Runs
    ensures { result ≡ outline_reply sync recording.now }
{
    if limit::too_long(recording) {
        return refused(refusal::LENGTH);
    }
    let mut image = 0;
    let mut health = 0;
    if let Some((first, next)) = search::next(recording, sync, Words(0)) {
        if header::kind_of(first.header) == run::IMAGE {
            run::image_run(&recording, sync, next.0, &mut image, &mut health);
        } else {
            run::health_run(&recording, sync, next.0, &mut image, &mut health);
        }
    }
    Runs {
        refusal: 0,
        image,
        health,
    }
}
