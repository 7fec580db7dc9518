// What a line of text holds.
use calls::Call;

// Why a line holds no call.
#[derive(Clone, Copy)]
pub enum Fault {
    // its first word is none of the four
    UnknownWord,
    // it ends where a number is wanted
    MissingNumber,
    // the word there has something in it that is no digit
    NotANumber,
    // more than 32 bits hold
    TooLarge,
    // something stands behind its numbers
    TooMuch,
}

// A call; or none, where nothing but blanks stands there, or a comment.
pub type Line = Result<Option<Call>, Fault>;
