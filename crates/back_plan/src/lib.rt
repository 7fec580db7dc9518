// What a hand-back finds, or why not: reads only, so that a refusal changes nothing.
//
// Private to the allocator, though Rattle has no word for that: the room that is required here the gate has tested.
#![tactic(auto)]

ghost use Rattle.std.specs.Prelude.{◌≡◌, ℕ, ◌≤◌, ◌<◌, List, []};
ghost use Rattle.basics.specs.Sum.{one};
ghost use Rattle.tables.specs.HandBack.{plan_merged, plan_back};
ghost use Rattle.answers.specs.Asked.{token_of};
ghost use Rattle.records.specs.InWords.{words_of, HasRoom, place};
ghost use Rattle.back_plan.specs.Plan.{plan_of, Beside, joined, UnderRecord};

use answers::{Allocation, Handle, Refusal};
use records::nodes;
use records::nodes::Field;
use records::totals::Totals;
use small_float::Size;

// What the merged region will be: the record it is under, its length, its offset, the links to its neighbours, and the free total with it.
#[derive(Clone, Copy)]
pub struct Merged {
    pub record: Handle,
    pub length: Size,
    pub start: u32,
    pub before: Handle,
    pub after: Handle,
    pub total: u32,
}

// A neighbour by its link, which need not be a record, and whether it is free and so merged. No `Option`: `plan_of` and the promises made with it name the
// link of a neighbour that is not free too.
#[derive(Clone, Copy)]
pub struct Neighbor {
    pub link: Handle,
    pub free: bool,
}

// The neighbours before and after, and what comes of them.
#[derive(Clone, Copy)]
pub struct Planned {
    pub prev: Neighbor,
    pub next: Neighbor,
    pub merged: Merged,
}

// What lies on one side: the neighbour, and what it adds to the merged region: its length, its offset, and the link beyond it.
// All of it counts whether it is free or not (`Beside`).
#[derive(Clone, Copy)]
pub struct Side {
    pub link: Handle,
    pub free: bool,
    pub length: Size,
    pub offset: u32,
    pub beyond: Handle,
}

// A neighbour that is not free adds nothing: the region keeps its own offset, and the link to it.
fn beside(nodes: &[u32], max_allocs: u32, link: Handle, outward: Field, own_offset: u32) -> Side
    requires { HasRoom max_allocs nodes.now }
    ensures { Beside nodes.now max_allocs link.0 (place outward) own_offset result }
{
    if records::live::is_free(nodes, max_allocs, link) {
        return Side {
            link,
            free: true,
            length: Size(nodes::word(nodes, link, Field::DataSize)),
            offset: nodes::word(nodes, link, Field::DataOffset),
            beyond: Handle(nodes::word(nodes, link, outward)),
        };
    }
    Side {
        link,
        free: false,
        length: Size(0),
        offset: own_offset,
        beyond: link,
    }
}

fn one_if(b: bool) -> usize
    ensures { (result ≡ one b) × (result ≤ 1) }
{
    if b {
        return 1;
    }
    0
}

// The merged region keeps the record that is handed back.
fn merged_under(r: Handle, before: Side, after: Side, length: Size, total: u32) -> Merged
    ensures { (result.record ≡ r) × (result.length ≡ length) × (result.start ≡ before.offset)
        × (result.before ≡ before.beyond) × (result.after ≡ after.beyond) × (result.total ≡ total) }
{
    let prev = before.beyond;
    let next = after.beyond;
    Merged {
        record: r,
        length,
        start: before.offset,
        before: prev,
        after: next,
        total,
    }
}

fn on_side(side: Side) -> Neighbor
    ensures { (result.link ≡ side.link) × (result.free ≡ side.free) }
{
    let link = side.link;
    Neighbor {
        link,
        free: side.free,
    }
}

// Neither the merged length nor the free total passes the size, and the pile has room. Sums of words are made in usize, which holds them.
fn plan_merged(
    t: Totals,
    r: Handle,
    before: Side,
    after: Side,
    own: Size,
) -> Result<Planned, Refusal>
    ensures result_value { plan_of result
        ≡ plan_merged (words_of t [] [] [] []) before.link.0 after.link.0 before.free after.free
        (joined t.free_storage own.0 before after) }
    ensures under_record { UnderRecord r.0 result }
{
    let size = t.size as usize;
    let own_length = own.0 as usize;
    let length_before = before.length;
    let length_after = after.length;
    let length = (length_before.0 as usize) + own_length + (length_after.0 as usize);
    if size < length {
        return Err(Refusal::Unsound);
    }
    let total = (t.free_storage as usize) + own_length;
    if size < total {
        return Err(Refusal::Unsound);
    }
    let pile_top = (t.free_offset as usize) + one_if(before.free) + one_if(after.free);
    if (t.max_allocs as usize) <= pile_top {
        return Err(Refusal::Unsound);
    }
    Ok(Planned {
        prev: on_side(before),
        next: on_side(after),
        merged: merged_under(r, before, after, Size(length as u32), total as u32),
    })
}

// What a hand-back of this span finds: refused with 5 if its record is not live, then with 8 if that starts elsewhere. That the table holds every
// record the gate has tested.
pub fn plan(t: Totals, span: Allocation, nodes: &[u32]) -> Result<Planned, Refusal>
    requires { HasRoom t.max_allocs nodes.now }
    ensures by_index { (heads leaves pile : List ℕ) → plan_of result ≡ plan_back (words_of t heads leaves nodes.now pile) (token_of span) }
    ensures under_record { UnderRecord span.metadata.0 result }
{
    let max_allocs = t.max_allocs;
    let r = span.metadata;
    if records::live::is_live(nodes, max_allocs, r) {
        let offset = nodes::word(nodes, r, Field::DataOffset);
        if offset != span.offset {
            return Err(Refusal::StartsElsewhere);
        }
        let prev = Handle(nodes::word(nodes, r, Field::NeighborPrev));
        let next = Handle(nodes::word(nodes, r, Field::NeighborNext));
        let before = beside(nodes, max_allocs, prev, Field::NeighborPrev, offset);
        let after = beside(nodes, max_allocs, next, Field::NeighborNext, offset);
        let own = Size(nodes::word(nodes, r, Field::DataSize));
        return plan_merged(t, r, before, after, own);
    }
    Err(Refusal::NotLive)
}
