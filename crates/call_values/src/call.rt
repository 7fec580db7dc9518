// A call as a value, for the list's rows.
#[derive(Clone, Copy)]
pub enum Call {
    // a store's size, and its count of records
    SetUp(u32, u32),
    Reset,
    // a size
    Take(u32),
    // where a span starts, and its record
    HandBack(u32, u32),
    // where a span starts, and its record
    SizeOf(u32, u32),
    Report,
    // a full report, of which one class is asked for
    ClassOf(u32),
    // a full report, of which is asked how many classes hold something
    ClassesHeld,
}
