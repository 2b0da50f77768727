// A running tally over many recordings: thirty numbers that the caller keeps, and each recording adds to.
#![tactic(auto)]

mod sum;

ghost use Rattle.std.specs.Prelude.{◌≡◌};
ghost use Rattle.base.specs.Refusal.{verdict};
ghost use Rattle.tally_counts.specs.Numbers.{numbers_of, tally_from};
ghost use Rattle.tally_counts.specs.Adding.{add_causes, added_reply, added_tally};

use base::refusal;
pub use tally_recording::{Counted, Tally, empty, of};

// how many numbers a tally has
pub const NUMBERS: usize = 30;

// The numbers of a tally, in order: written out, since rows copied to parts of an array show the order no plainer.
#[tactic(auto, unfolding(crate::specs::Numbers::numbers_of))]
pub fn numbers(tally: Tally) -> [u32; NUMBERS]
    ensures { result ≡ numbers_of tally }
{
    let chunks = tally.chunks;
    let packets = tally.packets;
    let units = tally.units;
    [
        tally.recordings,
        tally.words,
        tally.skipped,
        chunks[0],
        chunks[1],
        chunks[2],
        chunks[3],
        chunks[4],
        tally.complete,
        tally.cut,
        tally.strays,
        packets[0],
        packets[1],
        packets[2],
        packets[3],
        packets[4],
        packets[5],
        packets[6],
        packets[7],
        packets[8],
        packets[9],
        packets[10],
        packets[11],
        packets[12],
        packets[13],
        packets[14],
        units[0],
        units[1],
        units[2],
        units[3],
    ]
}

// The tally that has these numbers, as a caller kept them.
#[tactic(auto, unfolding(crate::specs::Numbers::tally_from, tally_recording::specs::Numbers::each))]
pub fn from_numbers(n: [u32; NUMBERS]) -> Tally
    ensures { result ≡ tally_from n }
{
    Tally {
        recordings: n[0],
        words: n[1],
        skipped: n[2],
        chunks: [n[3], n[4], n[5], n[6], n[7]],
        complete: n[8],
        cut: n[9],
        strays: n[10],
        packets: [
            n[11], n[12], n[13], n[14], n[15], n[16], n[17], n[18], n[19], n[20], n[21], n[22],
            n[23], n[24], n[25],
        ],
        units: [n[26], n[27], n[28], n[29]],
    }
}

// A tally with one recording more, where all thirty sums are numbers of a tally.
pub fn added(tally: Tally, recording: &[u16], sync: u16) -> Counted
    ensures { result ≡ added_reply tally sync recording.now }
{
    let one = of(recording, sync);
    if one.refusal != 0 {
        return one;
    }
    match sum::sums(numbers(tally), numbers(one.tally)) {
        Some(all) => Counted {
            refusal: 0,
            tally: from_numbers(all),
        },
        None => Counted {
            refusal: refusal::UNSPECIFIED,
            tally: empty(),
        },
    }
}

// One recording more to the caller's tally, which a refusal leaves as it is. This form, over `added`, is named in docs/PROMISES.md, "Where each form
// goes".
#[tactic(auto, using(crate::proofs::Keeping::added_number, crate::proofs::Keeping::taken, crate::proofs::Keeping::left))]
pub fn add(tally: &mut Tally, recording: &[u16], sync: u16) -> u8
    ensures reply { result ≡ verdict (add_causes tally.old sync recording.now) }
    ensures tally { tally.new ≡ added_tally tally.old sync recording.now }
{
    let next = added(*tally, recording, sync);
    if next.refusal == 0 {
        *tally = next.tally;
    }
    next.refusal
}
