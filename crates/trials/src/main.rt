// The calls, tried in both forms. Without an argument: the oracle's list of runs is read from standard input and its calls are made, in place and
// by value, on tables for 1,024 records, the most that a run of the list has; printed is how many rows agree with what the port answers.
//
// With an argument long runs are compared, which tools/long-run pipes in, on tables for 1,048,576 records, one form at a time: with one argument in
// place, with two by value. The tables take 36 MiB, so tools/long-run asks for a stack that holds them.
#![tactic(auto)]

mod runs;

use run_rows::forms::Forms;
use std::env::{Env, FillError};

// The form that is left out is lent tables of one word, which nothing touches.
fn compare_in_place(
    rt: &(impl Input + Print),
    nodes: &mut [u32; 8388608],
    free_nodes: &mut [u32; 1048576],
) {
    runs::compare_input(
        rt,
        Forms::InPlace,
        nodes,
        free_nodes,
        &mut [0; 1],
        &mut [0; 1],
    );
}

fn compare_by_value(
    rt: &(impl Input + Print),
    nodes: &mut [u32; 8388608],
    free_nodes: &mut [u32; 1048576],
) {
    runs::compare_input(
        rt,
        Forms::ByValue,
        &mut [0; 1],
        &mut [0; 1],
        nodes,
        free_nodes,
    );
}

fn print_list(rt: &(impl Input + Print)) {
    let mut nodes = [0u32; 8192];
    let mut free_nodes = [0u32; 1024];
    let mut value_nodes = [0u32; 8192];
    let mut value_free_nodes = [0u32; 1024];
    runs::compare_input(
        rt,
        Forms::Both,
        &mut nodes,
        &mut free_nodes,
        &mut value_nodes,
        &mut value_free_nodes,
    );
}

// Long runs: with one word in place, with more by value.
fn print_long_on(
    rt: &(impl Input + Print),
    words: usize,
    nodes: &mut [u32; 8388608],
    free_nodes: &mut [u32; 1048576],
) {
    if 1 < words {
        compare_by_value(rt, nodes, free_nodes);
    } else {
        compare_in_place(rt, nodes, free_nodes);
    }
}

// The input is one list, of which words beyond the second find nothing left. That the function calls itself for these is for the compiler, which puts
// no such function into its caller, and is told so too: there the tables would be on the stack with the list of the gate too.
#[inline(never)]
fn print_long(rt: &(impl Input + Print), words: usize) {
    let mut nodes = [0u32; 8388608];
    let mut free_nodes = [0u32; 1048576];
    print_long_on(rt, words, &mut nodes, &mut free_nodes);
    if 2 < words {
        print_long(rt, words - 1);
    }
}

// How many arguments there are. The first of all is the program's own name, and the list ends where one is missing.
fn argument_count(env: &impl Env) -> usize {
    let mut count = 0;
    for i in 1..usize::MAX {
        if let Err(FillError::NotPresent) = env.arg(i, &mut []) {
            break;
        }
        count = i;
    }
    count
}

fn main(rt: HostRuntime) {
    let arguments = argument_count(&rt);
    if 0 < arguments {
        print_long(&rt, arguments);
    } else {
        print_list(&rt);
    }
}
