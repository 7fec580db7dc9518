// What the port answers, in the numbers that a row can be held against.
#[derive(Clone, Copy)]
pub enum Answer {
    // setup, reset or hand back, done
    Done,
    // where a span starts, and its record
    Granted(u32, u32),
    // the length of a span
    Length(u32),
    // a report's two figures: the free total, and the largest region
    Free(u32, u32),
    // a class's value, and how many free regions it holds
    Regions(u64, u32),
    // how many classes hold something
    Held(u32),
    // the refusal of this number, as a row has it and `x_agrees_with` and `listed_is_5_or_8` speak of it
    Refused(u32),
    // nothing that a row says: a class was asked for that no report has, a case of `told`
    Nothing,
}
