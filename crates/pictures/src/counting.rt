// How many calls there are to draw, and how the journal ends.
use journal::entry::Entry;

// So many calls a picture shows.
pub const MOST: u32 = 1000;

// The calls that are drawn, and what stands behind the last of them: nothing, where the journal is whole; a record that cannot be read; or one more call,
// where there are more than a picture shows.
#[derive(Clone, Copy)]
pub struct Counted {
    pub calls: u32,
    pub behind: Entry,
}

pub fn count(bytes: &[u8]) -> Counted {
    let mut at = 0;
    for calls in 0..MOST {
        let behind = journal::reading::read(bytes, at);
        let Ok(Some(record)) = behind else {
            return Counted { calls, behind };
        };
        at = record.next;
    }
    Counted {
        calls: MOST,
        behind: journal::reading::read(bytes, at),
    }
}
