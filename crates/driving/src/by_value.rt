// The calls by value: the head goes in and comes out.
use crate::form::{Form, FreeNodes, Nodes};
use crate::rows::Plan;
use answers::{Allocation, Refusal};
use offset_allocator::head::Head;
use small_float::Size;

#[derive(Clone, Copy)]
pub struct ByValue {
    head: Head,
}

impl Form for ByValue {
    fn set_up(plan: Plan, nodes: &mut Nodes, free_nodes: &mut FreeNodes) -> ByValue {
        let started = Head::with_max_allocs(Size(plan.size), plan.records, nodes, free_nodes);
        ByValue { head: started.head }
    }

    fn allocate(
        &mut self,
        size: Size,
        nodes: &mut [u32],
        free_nodes: &mut [u32],
    ) -> Result<Allocation, Refusal> {
        let taken = self.head.allocate(size, nodes, free_nodes);
        self.head = taken.head;
        taken.answer
    }

    fn free(&mut self, span: Allocation, nodes: &mut [u32], free_nodes: &mut [u32]) {
        let freed = self.head.free(span, nodes, free_nodes);
        self.head = freed.head;
    }
}
