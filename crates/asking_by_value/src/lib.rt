// The questions by value, as they come as values: the head goes in, and stays as it was.
#![tactic(auto)]

ghost use Rattle.std.specs.Prelude.{◌≡◌};
ghost use Rattle.tables.specs.Words.{Words};
ghost use Rattle.offset_allocator.specs.HeadWords.{head_words};
ghost use Rattle.call_values.specs.declared.answer.Answer.{Answer as Told};
ghost use Rattle.call_values.specs.declared.call.Call.TheVariants.{SizeOf, Report, ClassOf, ClassesHeld};
ghost use Rattle.telling.specs.Made.{made, by_value};

use answers::{Allocation, Handle};
use call_values::answer::Answer;
use offset_allocator::head::Head;
use telling::told;

// The four questions stand in `calling_in_place` once more, which says why.
pub fn size_of(head: Head, nodes: &[u32], free_nodes: &[u32], offset: u32, number: u32) -> Answer
    ensures { ◌≡◌ {A = Told × Words} (result, head_words head nodes.now free_nodes.now)
        (made by_value (SizeOf offset number) (head_words head nodes.now free_nodes.now)) }
{
    let span = Allocation {
        offset,
        metadata: Handle(number),
    };
    let given = head.allocation_size(span, nodes, free_nodes);
    told::of_answer(given)
}

pub fn report(head: Head, nodes: &[u32], free_nodes: &[u32]) -> Answer
    ensures { ◌≡◌ {A = Told × Words} (result, head_words head nodes.now free_nodes.now)
        (made by_value Report (head_words head nodes.now free_nodes.now)) }
{
    let given = head.storage_report(nodes, free_nodes);
    told::of_answer(given)
}

pub fn class_of(head: Head, nodes: &[u32], free_nodes: &[u32], class: u32) -> Answer
    ensures { ◌≡◌ {A = Told × Words} (result, head_words head nodes.now free_nodes.now)
        (made by_value (ClassOf class) (head_words head nodes.now free_nodes.now)) }
{
    let full = head.storage_report_full(nodes, free_nodes);
    told::of_class(full, class)
}

pub fn classes_held(head: Head, nodes: &[u32], free_nodes: &[u32]) -> Answer
    ensures { ◌≡◌ {A = Told × Words} (result, head_words head nodes.now free_nodes.now)
        (made by_value ClassesHeld (head_words head nodes.now free_nodes.now)) }
{
    let full = head.storage_report_full(nodes, free_nodes);
    told::of_classes(full)
}
