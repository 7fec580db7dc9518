// The calls by value: the head goes in and comes out, and the tables are lent.
#![tactic(auto)]

ghost use Rattle.std.specs.Prelude.{◌≡◌};
ghost use Rattle.tables.specs.Words.{Words};
ghost use Rattle.offset_allocator.specs.HeadWords.{head_words};
ghost use Rattle.call_values.specs.declared.answer.Answer.{Answer as Told};
ghost use Rattle.call_values.specs.declared.call.Call.TheVariants.{SetUp, Reset, Take, HandBack};
ghost use Rattle.telling.specs.Made.{made, made_if, by_value};

use answers::{Allocation, Handle};
use call_values::answer::Answer;
use call_values::call::Call;
use offset_allocator::head::Head;
use small_float::Size;
use telling::{Called, told};

fn set_up(size: u32, count: u32, nodes: &mut [u32], free_nodes: &mut [u32]) -> Called<Head>
    ensures { (head : Head) → ◌≡◌ {A = Told × Words}
        (result.answer, head_words result.left nodes.new free_nodes.new)
        (made by_value (SetUp size count) (head_words head nodes.old free_nodes.old)) }
{
    let started = Head::with_max_allocs(Size(size), count, nodes, free_nodes);
    let given = started.answer;
    Called {
        answer: told::of_answer(given),
        left: started.head,
    }
}

fn reset(head: Head, nodes: &mut [u32], free_nodes: &mut [u32]) -> Called<Head>
    ensures { ◌≡◌ {A = Told × Words}
        (result.answer, head_words result.left nodes.new free_nodes.new)
        (made by_value Reset (head_words head nodes.old free_nodes.old)) }
{
    let started = head.reset(nodes, free_nodes);
    let given = started.answer;
    Called {
        answer: told::of_answer(given),
        left: started.head,
    }
}

fn take(head: Head, nodes: &mut [u32], free_nodes: &[u32], size: u32) -> Called<Head>
    ensures { ◌≡◌ {A = Told × Words}
        (result.answer, head_words result.left nodes.new free_nodes.now)
        (made by_value (Take size) (head_words head nodes.old free_nodes.now)) }
{
    let taken = head.allocate(Size(size), nodes, free_nodes);
    let given = taken.answer;
    Called {
        answer: told::of_answer(given),
        left: taken.head,
    }
}

// A row names a span by where it starts and by its record, and the call is handed both.
fn hand_back(
    head: Head,
    nodes: &mut [u32],
    free_nodes: &mut [u32],
    offset: u32,
    number: u32,
) -> Called<Head>
    ensures { ◌≡◌ {A = Told × Words}
        (result.answer, head_words result.left nodes.new free_nodes.new)
        (made by_value (HandBack offset number) (head_words head nodes.old free_nodes.old)) }
{
    let span = Allocation {
        offset,
        metadata: Handle(number),
    };
    let freed = head.free(span, nodes, free_nodes);
    let given = freed.answer;
    Called {
        answer: told::of_answer(given),
        left: freed.head,
    }
}

fn make_call(call: Call, head: Head, nodes: &mut [u32], free_nodes: &mut [u32]) -> Called<Head>
    ensures { ◌≡◌ {A = Told × Words} (result.answer, head_words result.left nodes.new free_nodes.new)
        (made by_value call (head_words head nodes.old free_nodes.old)) }
{
    match call {
        Call::SetUp(size, count) => set_up(size, count, nodes, free_nodes),
        Call::Reset => reset(head, nodes, free_nodes),
        Call::Take(size) => take(head, nodes, free_nodes, size),
        Call::HandBack(offset, number) => hand_back(head, nodes, free_nodes, offset, number),
        Call::SizeOf(offset, number) => Called {
            answer: asking_by_value::size_of(head, nodes, free_nodes, offset, number),
            left: head,
        },
        Call::Report => Called {
            answer: asking_by_value::report(head, nodes, free_nodes),
            left: head,
        },
        Call::ClassOf(class) => Called {
            answer: asking_by_value::class_of(head, nodes, free_nodes, class),
            left: head,
        },
        Call::ClassesHeld => Called {
            answer: asking_by_value::classes_held(head, nodes, free_nodes),
            left: head,
        },
    }
}

// The call made, and its answer; where none is asked for, nothing is answered and nothing changes.
pub fn make(
    call: Option<Call>,
    head: Head,
    nodes: &mut [u32],
    free_nodes: &mut [u32],
) -> Called<Head>
    ensures { ◌≡◌ {A = Told × Words} (result.answer, head_words result.left nodes.new free_nodes.new)
        (made_if by_value call (head_words head nodes.old free_nodes.old)) }
{
    match call {
        Some(call) => make_call(call, head, nodes, free_nodes),
        None => Called {
            answer: Answer::Nothing,
            left: head,
        },
    }
}
