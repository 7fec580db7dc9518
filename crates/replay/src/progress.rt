// How far a long replay is, on standard error if that is a terminal. The replay goes on where that cannot be told.
use std::io::IsTerminal;
use std::rt::Stderr;

const EVERY: u64 = 1048576;

pub fn is_shown(stderr: Stderr) -> bool {
    stderr.is_terminal()
}

pub fn show(rt: &impl Eprint, shown: bool, calls: u64) {
    if shown && calls % EVERY == 0 {
        let _ = eprint!(rt; "\r{calls} calls");
    }
}

// The line is left empty again.
pub fn end(rt: &impl Eprint, shown: bool) {
    if shown {
        let _ = eprint!(rt; "\r{:27}\r", "");
    }
}
