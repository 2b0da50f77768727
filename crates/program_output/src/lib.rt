// A program's output: text and numbers are gathered on a page, and written when it is full and at the end.
#![tactic(auto)]

ghost use Rattle.std.specs.Prelude.{◌≡◌, ◌+◌, leb};
ghost use Rattle.program_output.specs.Output.{page_size, to_reply, append_reply, decimal};

use base::Bytes;

// bytes that are written at once
pub const PAGE: Bytes = Bytes(4096);

// the descriptors that a page may go to: standard output and standard error. They are numbers, as the system has them: `Out::to` takes any other too
pub const OUTPUT: i32 = 1;

pub const ERROR: i32 = 2;

// the most digits that a number has, a byte each
const DIGITS: Bytes = Bytes(20);

// Some of the bytes were not written.
#[derive(Clone, Copy, Debug, PartialEq, Eq)]
pub struct Unwritten;

// A page: where it goes, its bytes, how many of them are used, and whether any were lost. There is no heap, so the room is of a fixed size with its used part
// told beside it; `failed` is a flag, since lost bytes are told once, at the end.
#[derive(Clone, Copy)]
pub struct Out {
    pub descriptor: i32,
    pub page: [u8; PAGE.0],
    pub used: Bytes,
    pub failed: bool,
}

impl Out {
    // An empty page.
    pub fn to(descriptor: i32) -> Out
        ensures { result ≡ to_reply descriptor }
    {
        Out {
            descriptor,
            page: [0; PAGE.0],
            used: Bytes(0),
            failed: false,
        }
    }

    // Bytes after those on the page. Where they do not fit the page stays as it is, and has failed.
    pub fn append(&mut self, bytes: &[u8])
        ensures { self.new ≡ append_reply self.old bytes.now }
    {
        if !self.fits(Bytes(bytes.len())) {
            self.failed = true;
            return;
        }
        let from = self.used.0;
        let end = from + bytes.len();
        self.page[from..end].copy_from_slice(bytes);
        self.used = Bytes(end);
    }

    // A number's decimal digits, in the same way. No `From` widens a `usize`.
    pub fn append_number(&mut self, n: usize)
        ensures { self.new ≡ append_reply self.old (decimal n) }
    {
        let mut digits = [0u8; DIGITS.0];
        let count = io::decimal(n as u64, &mut digits);
        self.append(&digits[..count]);
    }

    // Whether so many bytes more have room on the page. No sum of the two: it may be too large.
    fn fits(&self, more: Bytes) -> bool
        ensures { result ≡ leb (self.now.used.0 + more.0) page_size }
    {
        self.used.0.saturating_add(more.0) <= PAGE.0
    }
}

// A page with the runtime that writes it. A copy has a page of its own, so a program hands on `&mut Printer`. Lines are written by `text` and `number` and not by
// `write!`, since it is the digits of `append_number` that are promised.
#[derive(Clone, Copy)]
pub struct Printer {
    pub rt: HostRuntime,
    pub out: Out,
}

impl Printer {
    // Writes what stands on the page. Once some bytes were lost nothing more is written.
    pub fn flush(&mut self) -> Result<(), Unwritten> {
        let out = &mut self.out;
        let used = out.used.0;
        out.used = Bytes(0);
        out.failed = out.failed
            || PAGE.0 < used
            || !written(self.rt, out.descriptor, &out.page[..used]);
        if out.failed { Err(Unwritten) } else { Ok(()) }
    }

    // Makes room for so many bytes more, if the page has as many.
    fn make_room(&mut self, more: Bytes) {
        if !self.out.fits(more) {
            let _ = self.flush();
        }
    }

    // Text of no more than a page.
    pub fn text(&mut self, bytes: &[u8]) -> &mut Printer {
        self.make_room(Bytes(bytes.len()));
        self.out.append(bytes);
        self
    }

    // A number in decimal digits.
    pub fn number(&mut self, n: usize) -> &mut Printer {
        self.make_room(DIGITS);
        self.out.append_number(n);
        self
    }

    // The line of a refusal.
    pub fn refused(&mut self, refusal: u8) {
        self.text(b"refused ")
            .number(usize::from(refusal))
            .text(b"\n");
    }
}

// Says on standard error what a program cannot say in its output.
pub fn complain(rt: HostRuntime, bytes: &[u8]) {
    written(rt, ERROR, bytes);
}

// Writes all of the bytes, and whether that was done: a bool, as the kit's `io::write_all` gives, which `flush` keeps in `failed`. A descriptor that std has no
// stream of is written by the kit's io.
fn written(rt: HostRuntime, descriptor: i32, bytes: &[u8]) -> bool {
    match descriptor {
        OUTPUT => rt.stdout().write_all(bytes).is_ok(),
        ERROR => rt.stderr().write_all(bytes).is_ok(),
        _ => io::write_all(descriptor, bytes),
    }
}
