// The rows of the input, and what is printed of a run.
use crate::progress::{Draws, Run};
use oracle_lists::rows::Reader;
use streams::STDIN_FILENO;

// How many rows of its input a program reads at most.
pub const MOST_ROWS: u32 = 6;

// What a row asks for: which run, the store's size and its number of records, and how many calls.
#[derive(Clone, Copy)]
pub struct Plan {
    pub run: Run,
    pub size: u32,
    pub records: u32,
    pub calls: u32,
}

impl From<Reader> for Plan {
    fn from(row: Reader) -> Plan {
        Plan {
            run: Run::from(row.a),
            size: row.b,
            records: row.c,
            calls: row.d,
        }
    }
}

// The reader after one byte more of the input, if there is one and the row is not whole.
fn fed(reader: Reader) -> Reader {
    if reader.is_whole() {
        return reader;
    }
    let mut byte = [0u8; 1];
    let n = io::read_full(STDIN_FILENO, &mut byte);
    if n == 0 {
        return reader;
    }
    reader.feed(byte[0])
}

// The next row; it is not whole where the input has ended or is no list.
pub fn next() -> Reader {
    let mut reader = Reader::new();
    for _ in 0..64 {
        reader = fed(reader);
    }
    reader
}

// The row has this letter and as many numbers.
pub fn is(row: Reader, letter: u8, fields: u32) -> bool {
    row.letter == letter && row.fields == fields
}

// So many rows of the input at most, each answered; a row that is not whole is passed over. The first answer that fails ends it, and is handed on to
// whoever has to know; `going_on` has the same of answers that cannot fail. It asks that the answer may be called at any row, since none is known before.
pub fn each_row<F: FnMut(Reader) -> std::io::Result<()>>(
    most: u32,
    mut answer: F,
) -> std::io::Result<()>
    requires { F.IsAlwaysCallable answer }
{
    for _ in 0..most {
        let row = next();
        if row.is_whole() {
            answer(row)?;
        }
    }
    Ok(())
}

// The rows of the input, each a run: `LETTER RUN SIZE RECORDS CALLS`, with the form's letter. The first print that fails ends it, and is handed on to
// whoever has to know; the programs here go on (`going_on`). It asks of the run what `each_row` asks of the answer.
pub fn drive_each<R: Print, F: FnMut(Plan) -> Draws>(
    rt: &R,
    letter: u8,
    mut drive: F,
) -> std::io::Result<()>
    requires { F.IsAlwaysCallable drive }
{
    for _ in 0..MOST_ROWS {
        let row = next();
        if !row.is_whole() {
            continue;
        }
        if is(row, letter, 4) {
            println!(rt; "{}", drive(Plan::from(row)))?;
        } else {
            println!(rt; "a row is {} RUN SIZE RECORDS CALLS", char::from(letter))?;
        }
    }
    Ok(())
}
