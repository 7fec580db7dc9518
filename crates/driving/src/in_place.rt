// The calls in place: the scalars by value, the arrays and the tables lent.
use crate::form::{Form, FreeNodes, Nodes};
use crate::rows::Plan;
use answers::{Allocation, Refusal};
use records::totals::Totals;
use small_float::Size;

#[derive(Clone, Copy)]
pub struct InPlace {
    pub totals: Totals,
    pub bin_indices: [u32; 256],
    pub used_bins: [u8; 32],
}

impl Form for InPlace {
    fn set_up(plan: Plan, nodes: &mut Nodes, free_nodes: &mut FreeNodes) -> InPlace {
        let mut bin_indices = [0u32; 256];
        let mut used_bins = [0u8; 32];
        let started = starting::with_max_allocs(
            Size(plan.size),
            plan.records,
            &mut bin_indices,
            &mut used_bins,
            nodes,
            free_nodes,
        );
        InPlace {
            totals: started.totals,
            bin_indices,
            used_bins,
        }
    }

    fn allocate(
        &mut self,
        size: Size,
        nodes: &mut [u32],
        free_nodes: &mut [u32],
    ) -> Result<Allocation, Refusal> {
        let t = self.totals;
        let taken = taking::allocate(
            t,
            size,
            &mut self.bin_indices,
            &mut self.used_bins,
            nodes,
            free_nodes,
        );
        self.totals = taken.totals;
        taken.answer
    }

    fn free(&mut self, span: Allocation, nodes: &mut [u32], free_nodes: &mut [u32]) {
        let t = self.totals;
        let returned = giving::free(
            t,
            span,
            &mut self.bin_indices,
            &mut self.used_bins,
            nodes,
            free_nodes,
        );
        self.totals = returned.totals;
    }
}
