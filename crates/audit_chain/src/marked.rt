// What the walks read: the words of the records, and a mark at each record that is spare.
ghost use Rattle.std.specs.Prelude.{◌≤◌, length};
ghost use Rattle.records.specs.InWords.{HasRoom};

// Both tables have room for every record below the count: the audit's gate has tested it.
#[derive(Clone, Copy)]
pub struct Marked<'a> {
    pub nodes: &'a [u32],
    pub scratch: &'a [u32],
    pub max_allocs: u32,
    ghost has_room: { HasRoom max_allocs nodes.now },
    ghost has_marks: { max_allocs ≤ length scratch.now },
}
