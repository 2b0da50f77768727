// The lines of a comparison. A line is gathered on the page; the caller writes the last page.
use base::Words;
use chunk_compare::Compared;
use program_output::Printer;

// The line of the pair with this number.
fn pair(out: &mut Printer, number: usize, told: Option<Words>) {
    out.text(b"pair ").number(number);
    match told {
        None => out.text(b" same\n"),
        Some(word) => out.text(b" differs ").number(word.0).text(b"\n"),
    };
}

// A line for each entry. Pairs count from 1.
pub fn pairs(out: &mut Printer, entries: &[u16]) {
    for (place, entry) in entries.iter().enumerate() {
        pair(out, place + 1, chunk_compare::said(*entry));
    }
}

// The chunks of each recording that no chunk of the other is beside.
pub fn left(out: &mut Printer, compared: Compared) {
    out.text(b"left ")
        .number(compared.first_left)
        .text(b" ")
        .number(compared.second_left)
        .text(b"\n");
}
