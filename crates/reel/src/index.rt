// The index of a reel that is read, entry by entry as the recording is read: no list of the chunks is kept.
ghost use Rattle.std.specs.Prelude.{◌≡◌};
ghost use Rattle.chunk.specs.Reading.{reading};
ghost use Rattle.reel.specs.Layout.{entry_words, index_words};
ghost use Rattle.reel.specs.Reading.{same_words};

use chunk::{Entry, search};

// Whether these two words are an entry's.
fn is_entry(words: &[u16; 2], entry: Entry) -> bool
    ensures { result ≡ same_words words.now (entry_words entry) }
{
    let [position, header] = *words;
    usize::from(position) == entry.position.0 && header == entry.header
}

// Whether these words are the entries of a recording.
pub fn agrees(recording: &[u16], sync: u16, index: &[u16]) -> bool
    ensures { result ≡ same_words index.now (index_words (reading sync recording.now)) }
{
    let mut rest = index;
    for (entry, _) in search::chunks(recording, sync) {
        let Some((words, behind)) = rest.split_first_chunk() else {
            return false;
        };
        if !is_entry(words, entry) {
            return false;
        }
        rest = behind;
    }
    rest.is_empty()
}
