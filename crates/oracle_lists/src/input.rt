// A list on standard input, and what is printed of one that was compared.
use crate::rows::Reader;
use crate::tally::Tally;
use std::io;

// The bytes of standard input, block by block, to a block of none. A proved loop has to end, and nothing says that the input does: so turns are counted,
// up to a number that no run uses up.
pub fn for_each_block<R: Input, F: FnMut(&[u8])>(rt: &R, mut take: F)
    requires { F.IsAlwaysCallable take }
{
    let mut input = rt.reader();
    let mut buffer = [0u8; 65536];
    for _ in 0..u64::MAX {
        let n = streams::read_block(&mut input, &mut buffer);
        if n == 0 {
            break;
        }
        take(&buffer[..n]);
    }
}

// The tally, and whether the list ended within a row. The first print that fails ends it, and is handed on to whoever has to know.
pub fn print_outcome(rt: &impl Print, tally: Tally, reader: Reader) -> io::Result<()> {
    println!(rt; "{tally}")?;
    if !reader.ends_well() {
        println!(rt; "spoiled after row {}", tally.rows)?;
    }
    Ok(())
}

// The same for a program that goes on where it cannot be printed, as all of them do.
pub fn print_outcome_and_go_on(rt: &impl Print, tally: Tally, reader: Reader) {
    let _ = println!(rt; "{tally}");
    if !reader.ends_well() {
        let _ = println!(rt; "spoiled after row {}", tally.rows);
    }
}
