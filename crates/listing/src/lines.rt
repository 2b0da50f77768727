// The lines of a listing, one function for each. A line is gathered on the page; the caller writes the last page.
use base::Words;
use chunk::{Entry, header, search};
use frame::{Description, Piece, pieces};
use program_output::Printer;

pub fn recording(out: &mut Printer, words: &[u16], sync: u16) {
    let survey = chunk_reading::counting::count(words, sync);
    out.text(b"recording ")
        .number(words.len())
        .text(b" skipped ")
        .number(survey.skipped.0)
        .text(b"\n");
}

// A chunk that starts no frame and is no health chunk is a continuation.
fn kind(header: u16) -> &'static [u8] {
    match (header::kind_of(header), header::camera_of(header)) {
        (1, _) => b" health ",
        (_, 0) => b" more ",
        _ => b" image ",
    }
}

// A chunk that ends with the recording is marked: no header after it confirms its end.
fn chunk(out: &mut Printer, entry: Entry) {
    let word = entry.header;
    out.number(entry.position.0)
        .text(kind(word))
        .number(usize::from(header::camera_of(word)))
        .text(b" ")
        .number(header::size_of(word).0)
        .text(if entry.end { b" end\n" } else { b"\n" });
}

// A line for each listed chunk.
pub fn chunks(out: &mut Printer, words: &[u16], sync: u16) {
    for (entry, _) in search::chunks(words, sync) {
        chunk(out, entry);
    }
}

fn frame(out: &mut Printer, place: Words, described: Description) {
    out.text(b"frame ")
        .number(place.0)
        .text(b" camera ")
        .number(usize::from(described.camera))
        .text(b" chunks ")
        .number(described.chunks)
        .text(if described.complete {
            b" complete\n"
        } else {
            b" cut\n"
        });
}

fn stray(out: &mut Printer, place: Words) {
    out.text(b"stray ").number(place.0).text(b"\n");
}

// A line for each frame and each stray continuation.
pub fn frames_and_strays(out: &mut Printer, words: &[u16], sync: u16) {
    for piece in pieces::pieces(words, sync) {
        match piece {
            Piece::Frame(place, described, _) => frame(out, place, described),
            Piece::Stray(entry, _) => stray(out, entry.position),
        }
    }
}

pub fn runs(out: &mut Printer, words: &[u16], sync: u16) {
    let outline = chunk_outline::outline(words, sync);
    out.text(b"runs ")
        .number(outline.image)
        .text(b" ")
        .number(outline.health)
        .text(b"\n");
}
