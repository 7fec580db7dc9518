// A text of calls, read from standard input, is written to standard output as a journal: setup 100 6, take 20, back 0 0 or reset on a line. A line of
// blanks, or one that begins with #, is passed over. A bad line is told on standard error; nothing of it or of any later line is written.
#![tactic(auto)]

mod complaints;
mod progress;

use complaints::Complaint;
use progress::Progress;

// The text to its end, a block of no bytes; the last line may lack its newline. A proved loop has to end, and nothing says that the input does: so
// turns are counted, up to a number that no run reaches.
fn write_text(rt: &(impl Input + Print), progress: &mut Progress) -> Result<(), Complaint> {
    let mut input = rt.reader();
    let mut buffer = [0u8; 65536];
    for _ in 0..u64::MAX {
        let n = streams::read_block(&mut input, &mut buffer);
        if n == 0 {
            break;
        }
        for byte in &buffer[..n] {
            progress.feed(rt, *byte)?;
        }
    }
    progress.at_end(rt)
}

// Where it stopped, why.
fn tell(rt: &impl Eprint, written: Result<(), Complaint>) {
    if let Err(why) = written {
        let _ = eprintln!(rt; "{why}");
    }
}

// The records of the lines before a bad one are written all the same, and where that cannot be told.
fn main(rt: HostRuntime) {
    let mut progress = Progress::new();
    tell(&rt, write_text(&rt, &mut progress));
    tell(&rt, progress.flush(&rt));
}
