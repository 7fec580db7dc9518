// What a take finds, or why not: reads only, so that a refusal changes nothing.
//
// Private to the allocator, though Rattle has no word for that: the room that is required here the gate has tested.
#![tactic(auto)]

ghost use Rattle.std.specs.Prelude.{◌≡◌, cond, ◌≤◌, [], eqb, length as length_of, get_or};
ghost use Rattle.small_float.specs.Class.{rounded_up};
ghost use Rattle.small_float.specs.RoundedUp.{rounded_to};
ghost use Rattle.tables.specs.Take.{plan_spare, plan_region, plan_record, plan_take};
ghost use Rattle.answers.specs.Refusals.{number_of};
ghost use Rattle.records.specs.InWords.{words_of, HasRoom};
ghost use Rattle.take_plan.specs.Plan.{plan_of, Seeks};

use answers::{Handle, Refusal};
use bitmap::search;
use bitmap::search::NotFound;
use records::nodes;
use records::nodes::Field;
use records::totals::Totals;
use small_float::{Class, Size};

// The region that a take is given: its class, its record, and where it lies.
#[derive(Clone, Copy)]
pub struct Region {
    pub class: Class,
    pub record: Handle,
    pub offset: u32,
}

// What is left of a longer one: its length, and the spare record that it takes.
#[derive(Clone, Copy)]
pub struct Remainder {
    pub size: Size,
    pub record: Handle,
}

#[derive(Clone, Copy)]
pub enum Planned {
    // a region of just the right length
    Whole(Region),
    Split(Region, Remainder),
}

// A remainder needs the record on top of the pile.
fn plan_spare(t: Totals, region: Region, rest: Size, free_nodes: &[u32]) -> Result<Planned, Refusal>
    requires { t.max_allocs ≤ length_of free_nodes.now }
    ensures { plan_of result
        ≡ plan_spare (words_of t [] [] [] free_nodes.now)
        region.class.0 region.record.0 region.offset rest.0 (get_or free_nodes.now t.free_offset 0) }
{
    let top = t.free_offset;
    if t.max_allocs <= top {
        return Err(Refusal::Unsound);
    }
    let m = records::pile::spare(free_nodes, top);
    if t.max_allocs <= m.0 {
        return Err(Refusal::Unsound);
    }
    let remainder = Remainder {
        size: rest,
        record: m,
    };
    Ok(Planned::Split(region, remainder))
}

// The region found is long enough, lies in the store, and the kept total has room for the request.
fn plan_region(
    t: Totals,
    size: Size,
    region: Region,
    length: Size,
    free_nodes: &[u32],
) -> Result<Planned, Refusal>
    requires { t.max_allocs ≤ length_of free_nodes.now }
    ensures { plan_of result
        ≡ plan_region (words_of t [] [] [] free_nodes.now) size.0 region.class.0 region.record.0 length.0 region.offset }
{
    let wanted = size.0;
    let long = length.0;
    if long < wanted {
        return Err(Refusal::Unsound);
    }
    if t.size < long {
        return Err(Refusal::Unsound);
    }
    if t.size - long < region.offset {
        return Err(Refusal::Unsound);
    }
    if t.free_storage < wanted {
        return Err(Refusal::Unsound);
    }
    if long == wanted {
        return Ok(Planned::Whole(region));
    }
    plan_spare(t, region, Size(long - wanted), free_nodes)
}

// The top of the class is a record.
fn plan_record(
    t: Totals,
    size: Size,
    c: Class,
    r: Handle,
    nodes: &[u32],
    free_nodes: &[u32],
) -> Result<Planned, Refusal>
    requires has_room { HasRoom t.max_allocs nodes.now }
    requires max_allocs_in_bounds { t.max_allocs ≤ length_of free_nodes.now }
    ensures { plan_of result ≡ plan_record (words_of t [] [] nodes.now free_nodes.now) size.0 c.0 r.0 }
{
    if t.max_allocs <= r.0 {
        return Err(Refusal::Unsound);
    }
    let long = Size(nodes::word(nodes, r, Field::DataSize));
    let offset = nodes::word(nodes, r, Field::DataOffset);
    let region = Region {
        class: c,
        record: r,
        offset: offset,
    };
    plan_region(t, size, region, long, free_nodes)
}

// What a take comes to before it looks at a region: the class to look in, or what stops it. Spares are asked for before fit, so where both are wanting it is
// the number of spares.
fn seek(spares: u32, found: Result<Class, NotFound>) -> Result<Class, Refusal>
    ensures { Seeks spares found result }
{
    if spares == 0 {
        return Err(Refusal::NoSpareRecord);
    }
    match found {
        Ok(c) => Ok(c),
        Err(NotFound::NoClass) => Err(Refusal::NoRegion),
        Err(NotFound::BadBits) => Err(Refusal::Unsound),
    }
}

// The class from which a take searches upward: every region from there on is long enough.
fn searched_from(size: Size) -> Option<Class>
    ensures { rounded_to result ≡ rounded_up size.0 }
{
    small_float::uint_to_float_round_up(size)
}

// A size without a class is served by no region: nothing is looked for, and the refusal is that of spares or that of fit.
fn without_class(free_offset: u32) -> Refusal
    ensures { number_of result ≡ cond (eqb free_offset 0) 3 4 }
{
    if free_offset == 0 {
        return Refusal::NoSpareRecord;
    }
    Refusal::NoRegion
}

// What a take of this size finds.
pub fn plan(
    t: Totals,
    size: Size,
    bin_indices: &[u32; 256],
    used_bins: &[u8; 32],
    nodes: &[u32],
    free_nodes: &[u32],
) -> Result<Planned, Refusal>
    requires has_room { HasRoom t.max_allocs nodes.now }
    requires max_allocs_in_bounds { t.max_allocs ≤ length_of free_nodes.now }
    ensures { plan_of result
        ≡ plan_take (words_of t bin_indices.now used_bins.now nodes.now free_nodes.now) size.0 }
{
    let Some(least) = searched_from(size) else {
        return Err(without_class(t.free_offset));
    };
    let found = search::find_class(used_bins, t.used_bins_top, least);
    let c = seek(t.free_offset, found)?;
    let top = bin_indices[c.0 as usize];
    plan_record(t, size, c, Handle(top), nodes, free_nodes)
}
