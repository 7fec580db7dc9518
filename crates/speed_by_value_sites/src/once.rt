// The second place where a span is taken and goes back.
use answers::{Allocation, Handle};
use offset_allocator::head::Head;
use small_float::Size;

// One take and one return, in a store of its own; the number of the return's refusal, 0 where it is none.
pub fn drive(size: u32, records: u32, length: u32, handle: u32) -> u32 {
    let mut nodes = [0u32; 64];
    let mut free_nodes = [0u32; 8];
    let started = Head::with_max_allocs(Size(size), records, &mut nodes, &mut free_nodes);
    let fresh = started.head;
    let taken = fresh.allocate(Size(length), &mut nodes, &free_nodes);
    let head = taken.head;
    // the one span of a fresh store starts at 0
    let span = Allocation {
        offset: 0,
        metadata: Handle(handle),
    };
    let freed = head.free(span, &mut nodes, &mut free_nodes);
    let answer = freed.answer;
    answers::number(answer)
}
