// The calls with all of the head lent: the scalars stand in an array, beside the arrays and the tables.
use crate::form::{Form, FreeNodes, Nodes};
use crate::rows::Plan;
use answers::{Allocation, Refusal};
use records::totals::Totals;
use small_float::Size;

#[derive(Clone, Copy)]
pub struct Lent {
    scalars: [u32; Totals::SCALARS],
    bin_indices: [u32; 256],
    used_bins: [u8; 32],
}

impl Form for Lent {
    fn set_up(plan: Plan, nodes: &mut Nodes, free_nodes: &mut FreeNodes) -> Lent {
        let mut bin_indices = [0u32; 256];
        let mut used_bins = [0u8; 32];
        let started = starting::with_max_allocs(
            Size(plan.size),
            plan.records,
            &mut bin_indices,
            &mut used_bins,
            nodes,
            free_nodes,
        );
        let totals = started.totals;
        Lent {
            scalars: totals.in_array(),
            bin_indices,
            used_bins,
        }
    }

    fn allocate(
        &mut self,
        size: Size,
        nodes: &mut [u32],
        free_nodes: &mut [u32],
    ) -> Result<Allocation, Refusal> {
        lending::allocate(
            &mut self.scalars,
            size,
            &mut self.bin_indices,
            &mut self.used_bins,
            nodes,
            free_nodes,
        )
    }

    fn free(&mut self, span: Allocation, nodes: &mut [u32], free_nodes: &mut [u32]) {
        let _done = lending::free(
            &mut self.scalars,
            span,
            &mut self.bin_indices,
            &mut self.used_bins,
            nodes,
            free_nodes,
        );
    }
}
