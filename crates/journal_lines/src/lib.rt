// Calls and answers as lines that are printed together: bytes wait in a buffer until it is full. What a line says is proved in journal_text.
#![tactic(auto)]

ghost use Rattle.std.specs.Prelude.{◌≡◌, ◌<◌, ◌≤◌};

use calls::{Answer, Call};
use journal::entry::Broken;
use journal_text::writing;
use std::fmt;
use streams::STDOUT_FILENO;

// How many bytes can wait.
pub const ROOM: usize = 65536;

// The lines that are printed: the bytes that wait, and how many they are.
#[derive(Drop)]
pub struct Lines {
    bytes: [u8; 65536],
    waiting: usize,
    ghost fits: { waiting ≤ 65536 },
}

impl Lines {
    // None waits.
    pub fn new() -> Lines {
        Lines {
            bytes: [0; 65536],
            waiting: 0,
        }
    }

    // What waits is written; nothing waits then.
    pub fn flush(&mut self)
        ensures { self.new.waiting ≡ 0 }
    {
        io::write_all(STDOUT_FILENO, &self.bytes[..self.waiting]);
        self.waiting = 0;
    }

    // Where the buffer is full, it is written.
    fn make_room(&mut self)
        ensures { self.new.waiting < 65536 }
    {
        if self.waiting == ROOM {
            self.flush();
        }
    }

    fn byte(&mut self, byte: u8) {
        self.make_room();
        self.bytes[self.waiting] = byte;
        self.waiting += 1;
    }

    // One byte, as many texts have, goes as it is; as many as there is room for are copied at once; past that they go one by one.
    pub fn put(&mut self, text: &[u8]) {
        if let [byte] = text {
            return self.byte(*byte);
        }
        if text.len() <= ROOM - self.waiting {
            let end = self.waiting + text.len();
            self.bytes[self.waiting..end].copy_from_slice(text);
            self.waiting = end;
            return;
        }
        for byte in text {
            self.byte(*byte);
        }
    }

    pub fn number(&mut self, n: u64) {
        let mut digits = [0u8; 20];
        let count = io::decimal(n, &mut digits);
        self.put(&digits[..count]);
    }

    // What one of journal_text's functions writes.
    fn written<W: Fn(&mut [u8; 32]) -> usize>(&mut self, write: W)
        requires { W.IsAlwaysCallable write }
    {
        let mut line = [0u8; 32];
        let n = write(&mut line);
        self.put(front(&line, n));
    }

    // A call's text.
    pub fn call(&mut self, call: Call) {
        self.written(|line| writing::line_of(call, line));
    }

    // What a replay prints for an answer.
    pub fn answer(&mut self, answer: Answer) {
        self.written(|line| writing::line_of_answer(answer, line));
    }

    // The same as a line.
    pub fn answer_line(&mut self, answer: Answer) {
        self.answer(answer);
        self.byte(b'\n');
    }

    // What it prints last, where a record cannot be read.
    pub fn last(&mut self, why: Broken) {
        self.written(|line| writing::line_of_broken(why, line));
    }

    // The same as a line.
    pub fn last_line(&mut self, why: Broken) {
        self.last(why);
        self.put(b"\n");
    }

    // Why a record cannot be read: the number, and what it stands for.
    pub fn broken(&mut self, why: Broken) {
        self.last(why);
        self.put(match why {
            Broken::Cut => b": cut",
            Broken::UnknownKind => b": an unknown kind",
            Broken::WrongLength => b": a wrong length",
        });
    }
}

// What is written by a format waits too, and nothing fails.
impl fmt::Write for Lines {
    fn write_str(&mut self, text: &str) -> fmt::Result {
        self.put(text.as_bytes());
        Ok(())
    }
}

// The first bytes, as many as there are.
pub fn front(bytes: &[u8], n: usize) -> &[u8] {
    &bytes[..n.min(bytes.len())]
}
