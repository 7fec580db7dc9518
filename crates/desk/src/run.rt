// Document 01's run to follow, and one call that is not in it, a hand-back with another span's offset: each call with its answer, the report after it
// and a strip of the store; then the full report of the store as it stands at the end.
use crate::full;
use crate::strip::Strip;
use answers::{Allocation, Handle, Refusal};
use offset_allocator::head::Head;
use small_float::Size;

const SIZE: u32 = 100;

const COUNT: u32 = 6;

// The head and the tables, and a record that holds a region, for the strip to start from.
#[derive(Clone, Copy)]
struct Desk {
    head: Head,
    nodes: [u32; 48],
    free_nodes: [u32; 6],
    record: u32,
}

fn print_refusal(rt: &impl Print, why: Refusal) {
    let _ = print!(rt; "refusal {}          ", why.number());
}

fn print_done(rt: &impl Print) {
    let _ = print!(rt; "done               ");
}

fn set_up(rt: &impl Print) -> Desk {
    let _ = println!(rt;
        "call                answer              report after   store (record=length is live, record.length is free)"
    );
    let _ = print!(rt; "set up 100, 6       ");
    let mut nodes = [0u32; 48];
    let mut free_nodes = [0u32; 6];
    let started = Head::with_max_allocs(Size(SIZE), COUNT, &mut nodes, &mut free_nodes);
    let answer = started.answer;
    match answer {
        Ok(()) => print_done(rt),
        Err(why) => print_refusal(rt, why),
    }
    let head = started.head;
    let desk = Desk {
        head,
        nodes,
        free_nodes,
        record: 0,
    };
    desk.print_state(rt);
    desk
}

impl Desk {
    // The report, the strip and the end of the row.
    fn print_state(&self, rt: &impl Print) {
        match self.head.storage_report(&self.nodes, &self.free_nodes) {
            Ok(report) => {
                let total = report.total_free_space;
                let largest = report.largest_free_region;
                let _ = print!(rt; "{:>5},{:>4}", total.0, largest.0);
            }
            Err(why) => print_refusal(rt, why),
        }
        let strip = Strip {
            nodes: &self.nodes,
            record: self.record,
            count: COUNT,
        };
        let _ = println!(rt; "   {strip}");
    }

    // A grant's offset and record number, or the refusal; a grant's record is the one that the strip starts from next.
    fn take(&mut self, rt: &impl Print, size: u32) {
        let _ = print!(rt; "take {size:<15}");
        let taken = self
            .head
            .allocate(Size(size), &mut self.nodes, &self.free_nodes);
        self.head = taken.head;
        let answer = taken.answer;
        match answer {
            Ok(span) => {
                let handle = span.metadata;
                let _ = print!(rt; "offset{:>3}, record{:>2}", span.offset, handle.0);
                self.record = handle.0;
            }
            Err(why) => print_refusal(rt, why),
        }
        self.print_state(rt);
    }

    // The span of this record, which is said to start at this offset; if it went back, the strip starts from its record next.
    fn hand_back(&mut self, rt: &impl Print, offset: u32, record: u32) {
        let _ = print!(rt; "hand back {record:<2}at {offset:<5}");
        let span = Allocation {
            offset,
            metadata: Handle(record),
        };
        let freed = self.head.free(span, &mut self.nodes, &mut self.free_nodes);
        self.head = freed.head;
        let answer = freed.answer;
        match answer {
            Ok(()) => {
                print_done(rt);
                self.record = record;
            }
            Err(why) => print_refusal(rt, why),
        }
        self.print_state(rt);
    }
}

pub fn print_run(rt: &impl Print) {
    let mut desk = set_up(rt);
    desk.take(rt, 20);
    desk.take(rt, 30);
    desk.take(rt, 49);
    desk.take(rt, 48);
    // not document 01's: record 1 starts at 20
    desk.hand_back(rt, 50, 1);
    desk.hand_back(rt, 20, 1);
    desk.hand_back(rt, 20, 1);
    desk.take(rt, 0);
    desk.take(rt, 1);
    desk.hand_back(rt, 0, 0);
    desk.hand_back(rt, 98, 3);
    desk.hand_back(rt, 50, 2);
    let _ = println!(rt);
    full::print_report(
        rt,
        desk.head.storage_report_full(&desk.nodes, &desk.free_nodes),
    );
}
