// What a picture says of its journal.
use crate::counting::Counted;
use journal_lines::Lines;

fn calls_between(before: &[u8], calls: u32, behind: &[u8], out: &mut Lines) {
    out.put(before);
    out.number(u64::from(calls));
    out.put(behind);
}

// How many calls are drawn, and whether that is all; where the journal breaks off, the reason.
pub fn put(counted: Counted, out: &mut Lines) {
    let calls = counted.calls;
    match counted.behind {
        Ok(None) => calls_between(b"A journal of ", calls, b" calls", out),
        Ok(Some(_)) => calls_between(b"The first ", calls, b" calls of a longer journal", out),
        Err(why) => {
            calls_between(
                b"A journal of ",
                calls,
                b" calls, and a record that is refused as ",
                out,
            );
            out.broken(why);
        }
    }
}
