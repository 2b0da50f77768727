// The search for the next chunk.
ghost use Rattle.std.specs.Prelude.{◌≡◌};
ghost use Rattle.chunk.specs.Reading.{next_from};
ghost use Rattle.chunk.specs.Within.{SyncFrom};

use crate::walk::Chunks;
use crate::{Entry, confirm, header};
use base::Words;

// The next place that has the sync word and a word after it. In a stretch of noise each word is looked at once, with one bound to test; that words with no place
// go first leaves one jump a word there, which `confirm::places` before the loop made two.
// docs/PROMISES.md names the form of these two searches: a loop over positions that yields by `break`.
#[tactic(auto, using(crate::proofs::Steps::found_last, crate::proofs::Steps::found_beyond))]
fn next_sync(words: &[u16], sync: u16, from: Words) -> Option<Words>
    ensures { SyncFrom sync words.now from.0 result }
{
    if words.len() < header::HEADER.0 {
        return None;
    }
    let places = words.len() - 1;
    let mut at = from.0;
    loop {
        if places <= at {
            break None;
        }
        if words[at] == sync {
            break Some(Words(at));
        }
        at += 1;
    }
}

// The next confirmed chunk at or after a place, and the place past it.
#[tactic(auto, using(crate::proofs::Synced::none_found))]
pub fn next(words: &[u16], sync: u16, from: Words) -> Option<(Entry, Words)>
    ensures { result ≡ next_from sync words.now from.0 }
{
    let mut place = from;
    loop {
        let Some(at) = next_sync(words, sync, place) else {
            break None;
        };
        let here = confirm::check_synced(words, sync, at);
        if header::is_chunk(here) {
            let word = words[at.0 + 1];
            let end = at.0 + header::HEADER.0 + header::size_of(word).0;
            let entry = Entry {
                position: at,
                header: word,
                end: header::is_at_end(here),
            };
            break Some((entry, Words(end)));
        }
        place = Words(at.0 + 1);
    }
}

// Every listed chunk, with the place past it.
pub fn chunks(words: &[u16], sync: u16) -> Chunks<'_>
    ensures words { result.words.now ≡ words.now }
    ensures sync { result.sync ≡ sync }
    ensures at { result.at.0 ≡ 0 }
{
    Chunks {
        words,
        sync,
        at: Words(0),
    }
}
