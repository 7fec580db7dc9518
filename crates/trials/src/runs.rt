// The list of runs, compared: each row's call is made in place and by value, or in one of the forms, each on tables of its own, and a row agrees only
// if every form that is made answers as it says. The library `run_rows` has the call that a row stands for, and `answer_rows` the port's answer as the
// row that it would write.
ghost use Rattle.std.specs.Prelude.{◌≡◌};
ghost use Rattle.call_values.specs.declared.answer.Answer.{Answer};
ghost use Rattle.call_values.specs.declared.call.Call.{Call};
ghost use Rattle.answer_rows.specs.Said.{said_of};

use call_values::answer::Answer;
use call_values::call::Call;
use call_verdicts::Said;
use offset_allocator::head::Head;
use oracle_lists::input;
use oracle_lists::rows::Reader;
use oracle_lists::tally::{Tally, Verdict};
use records::totals::Totals;
use run_rows::forms::Forms;
use run_rows::{asked, full};

// The list read so far, the tally of its rows, how many classes of a full report came just before, and what each form keeps beside its tables.
#[derive(Clone, Copy)]
struct Comparison {
    forms: Forms,
    reader: Reader,
    tally: Tally,
    classes: u32,
    totals: Totals,
    bin_indices: [u32; 256],
    used_bins: [u8; 32],
    head: Head,
}

// The row that the port would write, if it was asked and a row says what it answered.
fn said(call: Option<Call>, answer: Answer) -> Option<Said>
    ensures asked { (c : Call) → call ≡ Some c → result ≡ said_of c answer }
    ensures no_call { call ≡ None → result ≡ None }
{
    answer_rows::said(call?, answer)
}

fn judge(row: Reader, call: Option<Call>, answer: Answer) -> Verdict {
    call_verdicts::judge(row, said(call, answer))
}

impl Comparison {
    // Before the first setup: a head of zeros, on which every call is refused.
    fn new(forms: Forms) -> Comparison {
        let totals = Totals::zeros();
        let bin_indices = [0u32; 256];
        let used_bins = [0u8; 32];
        Comparison {
            forms,
            reader: Reader::new(),
            tally: Tally::new(),
            classes: 0,
            totals,
            bin_indices,
            used_bins,
            head: Head {
                totals,
                bin_indices,
                used_bins,
            },
        }
    }

    // The call made in place, if that form is asked it.
    fn make_in_place(
        &mut self,
        call: Option<Call>,
        nodes: &mut [u32],
        free_nodes: &mut [u32],
    ) -> Answer {
        let t = self.totals;
        let made = calling_in_place::make(
            call,
            t,
            &mut self.bin_indices,
            &mut self.used_bins,
            nodes,
            free_nodes,
        );
        self.totals = made.left;
        made.answer
    }

    // The same by value.
    fn make_by_value(
        &mut self,
        call: Option<Call>,
        nodes: &mut [u32],
        free_nodes: &mut [u32],
    ) -> Answer {
        let made = calling_by_value::make(call, self.head, nodes, free_nodes);
        self.head = made.left;
        made.answer
    }

    // A row: its call is made in each form that is compared, and what they answered is held against the row and counted.
    fn compare_row(
        &mut self,
        row: Reader,
        nodes: &mut [u32],
        free_nodes: &mut [u32],
        value_nodes: &mut [u32],
        value_free_nodes: &mut [u32],
    ) {
        let forms = self.forms;
        let call = asked::call_of(row);
        let placed = self.make_in_place(forms.call_in_place(call), nodes, free_nodes);
        let valued = self.make_by_value(forms.call_by_value(call), value_nodes, value_free_nodes);
        let verdict = forms.verdict(judge(row, call, placed), judge(row, call, valued));
        self.tally = self
            .tally
            .count(full::whole_report(row, self.classes, verdict));
        self.classes = full::classes_after(row, self.classes);
    }

    // All of the bytes, in order; where one ends a row, the row is compared.
    fn feed_all(
        &mut self,
        bytes: &[u8],
        nodes: &mut [u32],
        free_nodes: &mut [u32],
        value_nodes: &mut [u32],
        value_free_nodes: &mut [u32],
    ) {
        for byte in bytes {
            let reader = self.reader.feed(*byte);
            self.reader = reader;
            if reader.is_whole() {
                self.compare_row(reader, nodes, free_nodes, value_nodes, value_free_nodes);
            }
        }
    }
}

// The list on standard input to its end, and how many of its rows agreed.
pub fn compare_input(
    rt: &(impl Input + Print),
    forms: Forms,
    nodes: &mut [u32],
    free_nodes: &mut [u32],
    value_nodes: &mut [u32],
    value_free_nodes: &mut [u32],
) {
    let mut comparison = Comparison::new(forms);
    input::for_each_block(rt, |bytes| {
        comparison.feed_all(bytes, nodes, free_nodes, value_nodes, value_free_nodes)
    });
    input::print_outcome_and_go_on(rt, comparison.tally, comparison.reader);
}
