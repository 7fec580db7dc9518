// A row is a journal: its bytes in hexadecimal, and `z`, a number and a dot for as many zeros.
use crate::replaying_one;
use journal_lines::Lines;
use std::io::Read;

// How many bytes of the input are read at most: the rows are few.
const MOST: u64 = 65536;

// What the journal's next bytes are made of, where something of it has been read.
#[derive(Clone, Copy)]
enum Part {
    // the first digit of a byte
    Half(u8),
    // a number of zeros
    Zeros(u32),
}

// The row that is being read: how many bytes its journal has so far, and what has been read of the next ones; and how many rows came before it.
#[derive(Drop)]
struct Rows {
    len: usize,
    part: Option<Part>,
    rows: u64,
}

// A digit's value, if it is one.
fn value(digit: u8) -> Option<u8> {
    match digit {
        b'0'..=b'9' => Some(digit - b'0'),
        b'a'..=b'f' => Some(digit - b'a' + 10),
        _ => None,
    }
}

// What a character counts for in a row: a digit its value, any other 16. So a bad row is read too, and what is printed of it stays what it is.
fn counted(byte: u8) -> u8 {
    value(byte).unwrap_or(16)
}

impl Rows {
    fn put(&mut self, journal: &mut [u8], byte: u8) {
        if self.len < journal.len() {
            journal[self.len] = byte;
            self.len += 1;
        }
    }

    // As many as there is room for.
    fn put_zeros(&mut self, journal: &mut [u8], count: u32) {
        let end = journal.len().min(self.len.saturating_add(count as usize));
        if self.len < end {
            journal[self.len..end].fill(0);
            self.len = end;
        }
    }

    // A digit of the number of zeros, or the dot behind it.
    fn count_on(&mut self, count: u32, byte: u8, journal: &mut [u8]) {
        if byte == b'.' {
            self.put_zeros(journal, count);
            self.part = None;
            return;
        }
        let more = u64::from(count) * 10 + u64::from(counted(byte));
        self.part = Some(Part::Zeros((more % 1000000) as u32));
    }

    // One byte of a row more.
    fn feed(&mut self, byte: u8, journal: &mut [u8]) {
        match self.part {
            Some(Part::Zeros(count)) => self.count_on(count, byte, journal),
            _ if byte == b'z' => self.part = Some(Part::Zeros(0)),
            Some(Part::Half(first)) => {
                let whole = u32::from(first) * 16 + u32::from(counted(byte));
                self.put(journal, (whole % 256) as u8);
                self.part = None;
            }
            None => self.part = Some(Part::Half(counted(byte))),
        }
    }

    // A row ends: its journal is replayed.
    fn end_row(&mut self, rt: &impl Print, journal: &[u8], out: &mut Lines) {
        self.rows = self.rows.saturating_add(1);
        let _ = println!(rt; "journal {}", self.rows);
        replaying_one::show(journal_lines::front(journal, self.len), out);
        self.len = 0;
        self.part = None;
    }

    // One byte of the input more.
    fn read(&mut self, rt: &impl Print, byte: u8, journal: &mut [u8], out: &mut Lines) {
        if byte == b'\n' {
            return self.end_row(rt, journal, out);
        }
        self.feed(byte, journal);
    }
}

// All the rows of the input, block by block; a read that fails is an end. A proved loop has to end, and nothing says that the input does: so turns are
// counted, up to a number that no run reaches.
pub fn replay_all(
    rt: &(impl Input + Print),
    buffer: &mut [u8; 65536],
    journal: &mut [u8; 131072],
    out: &mut Lines,
) {
    let mut input = rt.reader().take(MOST);
    let mut rows = Rows {
        len: 0,
        part: None,
        rows: 0,
    };
    for _ in 0..u64::MAX {
        let n = input.read(buffer).unwrap_or(0);
        if n == 0 {
            break;
        }
        for byte in &buffer[..n] {
            rows.read(rt, *byte, journal, out);
        }
    }
}
