// What the forms of the calls have in common: a store in which spans are taken and go back, and the run of these.
use crate::held;
use crate::progress::Draws;
use crate::rows::Plan;
use answers::{Allocation, Refusal};
use small_float::Size;

// Tables for 131,073 records: one more than document 01 allows, and a stack of 8 MiB holds them.
pub type Nodes = [u32; 1048584];

pub type FreeNodes = [u32; 131073];

// A head in one form of the calls, beside whose tables they are made.
pub trait Form: Sized {
    // A store that the plan sets up.
    fn set_up(plan: Plan, nodes: &mut Nodes, free_nodes: &mut FreeNodes) -> Self;

    fn allocate(
        &mut self,
        size: Size,
        nodes: &mut [u32],
        free_nodes: &mut [u32],
    ) -> Result<Allocation, Refusal>;

    fn free(&mut self, span: Allocation, nodes: &mut [u32], free_nodes: &mut [u32]);
}

// The next call.
fn step<H: Form>(
    before: Draws,
    head: &mut H,
    nodes: &mut [u32],
    free_nodes: &mut [u32],
    out: &mut [Allocation],
) -> Draws {
    let drawn = before.draw();
    if before.is_take() {
        let answer = head.allocate(Size(drawn.size()), nodes, free_nodes);
        held::keep(out, drawn.held, answer);
        return drawn.answered(answer);
    }
    if drawn.held == 0 {
        return drawn;
    }
    let span = held::swap_remove(out, drawn.held, drawn.place());
    head.free(span, nodes, free_nodes);
    drawn.gone_back()
}

// A run in a store that was set up, with whatever head.
pub fn run<H: Form>(
    plan: Plan,
    head: &mut H,
    nodes: &mut [u32],
    free_nodes: &mut [u32],
    out: &mut [Allocation],
) -> Draws {
    let mut draws = Draws::new(plan.run);
    for _ in 0..plan.calls {
        draws = step(draws, head, nodes, free_nodes, out);
    }
    draws
}

// A whole run, in tables of its own.
pub fn drive<H: Form + Drop>(plan: Plan) -> Draws {
    let mut nodes = [0u32; 1048584];
    let mut free_nodes = [0u32; 131073];
    let mut out = [held::NO_SPAN; 131073];
    let mut head = H::set_up(plan, &mut nodes, &mut free_nodes);
    run(plan, &mut head, &mut nodes, &mut free_nodes, &mut out)
}
