// Reads lines of a width, a register and a message, all in hexadecimal digits, and prints each with the message's CRC.
// A line that begins with # is printed as it is.
#![tactic(auto)]

ghost use Rattle.std.specs.Prelude.{◌<◌, ◌≤◌, length};

use base::{Bytes, number};

// Where the register begins in a line, and where the message.
const REGISTER: Bytes = Bytes(3);

const MESSAGE: Bytes = Bytes(8);

// the most items of a message that are read
const ITEMS: usize = 1024;

// A hexadecimal digit's value; another character counts as 0, an upper case letter too, which `char::to_digit` takes.
fn digit(c: u8) -> u8
    ensures { result < 16 }
{
    match c {
        b'0'..=b'9' => c - b'0',
        b'a'..=b'f' => c - b'a' + 10,
        _ => 0,
    }
}

// The byte of two digits; 0 where there are fewer.
fn byte(digits: &[u8]) -> u8 {
    match digits {
        [high, low, ..] => digit(*high) * 16 + digit(*low),
        _ => 0,
    }
}

// The word of four digits; 0 where there are fewer.
fn word(digits: &[u8]) -> u16 {
    if digits.len() < 4 {
        return 0;
    }
    number::word(byte(&digits[..2]), byte(&digits[2..]))
}

// What stands in a line from a place on.
fn after(line: &[u8], place: Bytes) -> &[u8] {
    line.get(place.0..).unwrap_or(&[])
}

// The message as items of so many digits each, as many as the room holds.
fn read<'a, T: Copy, F: Fn(&[u8]) -> T>(
    line: &[u8],
    width: usize,
    item: F,
    room: &'a mut [T],
) -> &'a [T]
    requires callable { F.IsAlwaysCallable item }
    requires some { 0 < width }
    ensures { length result.now ≤ length room.old }
{
    let message = after(line, MESSAGE);
    let count = room.len().min(message.len() / width);
    for (place, digits) in room.iter_mut().zip(message.chunks_exact(width)) {
        *place = item(digits);
    }
    &room[..count]
}

fn crc_of_bytes(line: &[u8]) -> u16 {
    let mut room = [0u8; ITEMS];
    crc::bytes(word(after(line, REGISTER)), read(line, 2, byte, &mut room))
}

fn crc_of_words(line: &[u8]) -> u16 {
    let mut room = [0u16; ITEMS];
    crc::words(word(after(line, REGISTER)), read(line, 4, word, &mut room))
}

// The CRC of a line's message: a line begins with 0 for bytes, 08, and with 1 for words, 16.
fn crc_of(line: &[u8]) -> Option<u16> {
    match line.first() {
        Some(b'0') => Some(crc_of_bytes(line)),
        Some(b'1') => Some(crc_of_words(line)),
        _ => None,
    }
}

// By the kit's `io`: std's streams would ask for the runtime, and no text is long enough for a page.
fn print_line(line: &[u8]) {
    io::write_all(1, line);
    if let Some(crc) = crc_of(line) {
        io::write_all(1, b" = ");
        io::print_hex(1, u64::from(crc), 4);
    }
    io::write_all(1, b"\n");
}

fn main() {
    let mut text = io::buffer();
    let n = io::read_full(0, &mut text);
    for line in text[..n].split_inclusive(|c| *c == b'\n') {
        print_line(line.strip_suffix(b"\n").unwrap_or(line));
    }
}
