// Document 01 from the proved functions: its run to follow and the full report after it, its table of size classes, and the smallest store of two
// objects.
#![tactic(auto)]

mod classes;
mod full;
mod run;
mod strip;

fn main(rt: HostRuntime) {
    run::print_run(&rt);
    let _ = println!(rt);
    classes::print_table(&rt);
    classes::print_smallest_store(&rt, 17);
    classes::print_smallest_store(&rt, 4294967295);
}
