// The calls in place: the scalars of the head by value, its two arrays and the tables lent.
#![tactic(auto)]

ghost use Rattle.std.specs.Prelude.{◌≡◌};
ghost use Rattle.tables.specs.Words.{Words};
ghost use Rattle.records.specs.InWords.{words_of};
ghost use Rattle.call_values.specs.declared.answer.Answer.{Answer as Told};
ghost use Rattle.call_values.specs.declared.call.Call.TheVariants.{SizeOf, Report, ClassOf, ClassesHeld};
ghost use Rattle.telling.specs.Made.{made, made_if, in_place};
ghost use Rattle.calling_in_place.specs.Changed.{changed};

use answers::{Allocation, Handle};
use call_values::answer::Answer;
use call_values::call::Call;
use records::totals::Totals;
use small_float::Size;
use telling::{Called, told};

// A call that changes something is made as `calling` makes it.
fn change(
    call: calls::Call,
    t: Totals,
    bin_indices: &mut [u32; 256],
    used_bins: &mut [u8; 32],
    nodes: &mut [u32],
    free_nodes: &mut [u32],
) -> Called<Totals>
    ensures { ◌≡◌ {A = Told × Words}
        (result.answer, words_of result.left bin_indices.new used_bins.new nodes.new free_nodes.new)
        (changed call (words_of t bin_indices.old used_bins.old nodes.old free_nodes.old)) }
{
    let made = calling::make(call, t, bin_indices, used_bins, nodes, free_nodes);
    let given = made.answer;
    Called {
        answer: told::of_answer(given),
        left: made.totals,
    }
}

// The questions, which change nothing. `asking_by_value` has them once more: one trait over both forms would want three methods in two impls and four
// generic functions, thirteen items for these eight.
fn size_of(
    t: Totals,
    bin_indices: &[u32; 256],
    used_bins: &[u8; 32],
    nodes: &[u32],
    free_nodes: &[u32],
    offset: u32,
    number: u32,
) -> Answer
    ensures { ◌≡◌ {A = Told × Words}
        (result, words_of t bin_indices.now used_bins.now nodes.now free_nodes.now)
        (made in_place (SizeOf offset number)
        (words_of t bin_indices.now used_bins.now nodes.now free_nodes.now)) }
{
    let span = Allocation {
        offset,
        metadata: Handle(number),
    };
    let given = asking::allocation_size(t, span, bin_indices, used_bins, nodes, free_nodes);
    told::of_answer(given)
}

fn report(
    t: Totals,
    bin_indices: &[u32; 256],
    used_bins: &[u8; 32],
    nodes: &[u32],
    free_nodes: &[u32],
) -> Answer
    ensures { ◌≡◌ {A = Told × Words}
        (result, words_of t bin_indices.now used_bins.now nodes.now free_nodes.now)
        (made in_place Report
        (words_of t bin_indices.now used_bins.now nodes.now free_nodes.now)) }
{
    let given = asking::storage_report(t, bin_indices, used_bins, nodes, free_nodes);
    told::of_answer(given)
}

fn class_of(
    t: Totals,
    bin_indices: &[u32; 256],
    used_bins: &[u8; 32],
    nodes: &[u32],
    free_nodes: &[u32],
    class: u32,
) -> Answer
    ensures { ◌≡◌ {A = Told × Words}
        (result, words_of t bin_indices.now used_bins.now nodes.now free_nodes.now)
        (made in_place (ClassOf class)
        (words_of t bin_indices.now used_bins.now nodes.now free_nodes.now)) }
{
    let full = asking::storage_report_full(t, bin_indices, used_bins, nodes, free_nodes);
    told::of_class(full, class)
}

fn classes_held(
    t: Totals,
    bin_indices: &[u32; 256],
    used_bins: &[u8; 32],
    nodes: &[u32],
    free_nodes: &[u32],
) -> Answer
    ensures { ◌≡◌ {A = Told × Words}
        (result, words_of t bin_indices.now used_bins.now nodes.now free_nodes.now)
        (made in_place ClassesHeld
        (words_of t bin_indices.now used_bins.now nodes.now free_nodes.now)) }
{
    let full = asking::storage_report_full(t, bin_indices, used_bins, nodes, free_nodes);
    told::of_classes(full)
}

fn make_call(
    call: Call,
    t: Totals,
    bin_indices: &mut [u32; 256],
    used_bins: &mut [u8; 32],
    nodes: &mut [u32],
    free_nodes: &mut [u32],
) -> Called<Totals>
    ensures { ◌≡◌ {A = Told × Words}
        (result.answer, words_of result.left bin_indices.new used_bins.new nodes.new free_nodes.new)
        (made in_place call (words_of t bin_indices.old used_bins.old nodes.old free_nodes.old)) }
{
    match call {
        Call::SetUp(size, count) => change(
            calls::Call::SetUp(Size(size), count),
            t,
            bin_indices,
            used_bins,
            nodes,
            free_nodes,
        ),
        Call::Reset => change(
            calls::Call::Reset,
            t,
            bin_indices,
            used_bins,
            nodes,
            free_nodes,
        ),
        Call::Take(size) => change(
            calls::Call::Take(Size(size)),
            t,
            bin_indices,
            used_bins,
            nodes,
            free_nodes,
        ),
        Call::HandBack(offset, number) => change(
            calls::Call::HandBack(Allocation {
                offset,
                metadata: Handle(number),
            }),
            t,
            bin_indices,
            used_bins,
            nodes,
            free_nodes,
        ),
        Call::SizeOf(offset, number) => Called {
            answer: size_of(t, bin_indices, used_bins, nodes, free_nodes, offset, number),
            left: t,
        },
        Call::Report => Called {
            answer: report(t, bin_indices, used_bins, nodes, free_nodes),
            left: t,
        },
        Call::ClassOf(class) => Called {
            answer: class_of(t, bin_indices, used_bins, nodes, free_nodes, class),
            left: t,
        },
        Call::ClassesHeld => Called {
            answer: classes_held(t, bin_indices, used_bins, nodes, free_nodes),
            left: t,
        },
    }
}

// The call made, and its answer; where none is asked for, nothing is answered and nothing changes.
pub fn make(
    call: Option<Call>,
    t: Totals,
    bin_indices: &mut [u32; 256],
    used_bins: &mut [u8; 32],
    nodes: &mut [u32],
    free_nodes: &mut [u32],
) -> Called<Totals>
    ensures { ◌≡◌ {A = Told × Words}
        (result.answer, words_of result.left bin_indices.new used_bins.new nodes.new free_nodes.new)
        (made_if in_place call (words_of t bin_indices.old used_bins.old nodes.old free_nodes.old)) }
{
    match call {
        Some(call) => make_call(call, t, bin_indices, used_bins, nodes, free_nodes),
        None => Called {
            answer: Answer::Nothing,
            left: t,
        },
    }
}
