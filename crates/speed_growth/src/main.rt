// How the cost of a call, of a setup and of an audit grows with the number of records. Rows of the input, of which two pairs are read at most:
//
//   t AGAIN SETUPS AUDITS             how often the store is set up before the run of the next row, and how often it is audited after it; and with
//                                     many records how often all that is done again, in further tables
//   p RUN SIZE RECORDS CALLS          that run, in place (`driving/src/progress.rt`)
//
// Printed are the run's two lines, which the oracle's `speed RUN SIZE RECORDS CALLS` prints of the Rust, and `sound` if the last audit said yes.
// With up to 1,024 records any stack will do. With more, up to 1,048,576, it must hold 48 MiB of tables, and as many for each time again; tools/growth
// asks for a stack that holds them once.
#![tactic(auto)]

use answers::Allocation;
use driving::held::NO_SPAN;
use driving::in_place::InPlace;
use driving::rows::Plan;
use driving::{again, form, rows};

const FEW: u32 = 1024;

// What a pair of rows asks for.
#[derive(Clone, Copy)]
struct Work {
    again: u32,
    setups: u32,
    audits: u32,
    plan: Plan,
}

// The next two rows, if they are a pair.
fn next() -> Option<Work> {
    let times = rows::next();
    let run = rows::next();
    if !times.is_whole()
        || !run.is_whole()
        || !rows::is(times, b't', 3)
        || !rows::is(run, b'p', 4)
    {
        return None;
    }
    Some(Work {
        again: times.b,
        setups: times.c,
        audits: times.d,
        plan: Plan::from(run),
    })
}

fn work_on(
    rt: &impl Print,
    work: Work,
    nodes: &mut [u32],
    free_nodes: &mut [u32],
    out: &mut [Allocation],
    scratch: &mut [u32],
) {
    let mut bin_indices = [0u32; 256];
    let mut used_bins = [0u8; 32];
    let plan = work.plan;
    let totals = again::set_up(
        work.setups,
        plan.size,
        plan.records,
        &mut bin_indices,
        &mut used_bins,
        nodes,
        free_nodes,
    );
    let mut head = InPlace {
        totals,
        bin_indices,
        used_bins,
    };
    let _ = println!(rt; "{}", form::run(plan, &mut head, nodes, free_nodes, out));
    let t = head.totals;
    if again::audit(
        work.audits,
        t,
        &head.bin_indices,
        &head.used_bins,
        nodes,
        free_nodes,
        scratch,
    ) {
        let _ = println!(rt; "sound");
    }
}

// The tables lent as slices, here where their lengths are no numbers that a proof would count out.
fn lend<const NODES: usize, const FREE_NODES: usize, const OUT: usize, const SCRATCH: usize>(
    rt: &impl Print,
    work: Work,
    nodes: &mut [u32; NODES],
    free_nodes: &mut [u32; FREE_NODES],
    out: &mut [Allocation; OUT],
    scratch: &mut [u32; SCRATCH],
) {
    work_on(rt, work, nodes, free_nodes, out, scratch);
}

fn on_few(rt: &impl Print, work: Work) {
    let mut nodes = [0u32; 8192];
    let mut free_nodes = [0u32; 1024];
    let mut out = [NO_SPAN; 1024];
    let mut scratch = [0u32; 1024];
    lend(
        rt,
        work,
        &mut nodes,
        &mut free_nodes,
        &mut out,
        &mut scratch,
    );
}

// It calls itself and is not to be put into its caller, where these tables would be on the stack with few records too.
#[inline(never)]
fn on_many(rt: &impl Print, work: Work, again: u32) {
    let mut nodes = [0u32; 8388608];
    let mut free_nodes = [0u32; 1048576];
    let mut out = [NO_SPAN; 1048576];
    let mut scratch = [0u32; 1048576];
    lend(
        rt,
        work,
        &mut nodes,
        &mut free_nodes,
        &mut out,
        &mut scratch,
    );
    if 0 < again {
        on_many(rt, work, again - 1);
    }
}

fn answer(rt: &impl Print, work: Work) {
    if FEW < work.plan.records {
        on_many(rt, work, work.again);
    } else {
        on_few(rt, work);
    }
}

fn main(rt: HostRuntime) {
    for _ in 0..2 {
        if let Some(work) = next() {
            answer(&rt, work);
        }
    }
}
