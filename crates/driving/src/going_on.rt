// The rows of the input answered by programs that go on where a print fails, as all programs here do. `rows` has the same for whoever has to know of
// the failure: it ends there, and hands it on. Both ask that what is called for a row may be called at any, since no row is known before.
use crate::progress::Draws;
use crate::rows;
use crate::rows::Plan;
use oracle_lists::rows::Reader;

// So many rows of the input at most, each answered; a row that is not whole is passed over.
pub fn for_each_row<F: FnMut(Reader)>(most: u32, mut answer: F)
    requires { F.IsAlwaysCallable answer }
{
    for _ in 0..most {
        let row = rows::next();
        if row.is_whole() {
            answer(row);
        }
    }
}

// The rows of the input, each a run: `LETTER RUN SIZE RECORDS CALLS`, with the form's letter.
pub fn drive_all<R: Print, F: FnMut(Plan) -> Draws>(rt: &R, letter: u8, mut drive: F)
    requires { F.IsAlwaysCallable drive }
{
    for _ in 0..rows::MOST_ROWS {
        let row = rows::next();
        if !row.is_whole() {
            continue;
        }
        if rows::is(row, letter, 4) {
            let _ = println!(rt; "{}", drive(Plan::from(row)));
        } else {
            let _ = println!(rt; "a row is {} RUN SIZE RECORDS CALLS", char::from(letter));
        }
    }
}
