// The parts of a head and its tables. Each can have a word put in it, for good or for one audit.
ghost use Rattle.std.specs.Prelude.{cond, ◌≡◌, ltb, leb, length, set};
ghost use Rattle.audit_verdicts.specs.Audited.{audit_number, OnlyIf};
ghost use Rattle.audit_trials.specs.Placed.{placed_if, total_put, state_put};

use audit_verdicts::State;
use oracle_lists::tally::Verdict;
use records::totals::Totals;

// The scalars in the order of their declaration; another index changes none.
#[tactic(auto, unfolding(crate::specs::Placed::total_put))]
fn with_total(t: Totals, i: u32, v: u32) -> Totals
    ensures { result ≡ total_put t i v }
{
    match i {
        0 => t.with_size(v),
        1 => t.with_max_allocs(v),
        2 => t.with_free_storage(v),
        3 => t.with_free_offset(v),
        4 => t.with_used_bins_top(v),
        _ => t,
    }
}

pub fn put_total(state: State, i: u32, v: u32) -> State
    ensures { result ≡ state_put state i v }
{
    State {
        totals: with_total(state.totals, i, v),
        ..state
    }
}

pub fn total_placed(i: u32) -> Verdict
    ensures { result ≡ placed_if (ltb i 5) }
{
    Verdict::from(i < 5)
}

// A word of a table; one that has no place differs from every list.
pub fn put<T: Copy>(table: &mut [T], i: u32, v: T) -> Verdict
    ensures placed { result ≡ placed_if (ltb i (length table.old)) }
    ensures put { table.new ≡ set table.old i v }
{
    let at = i as usize;
    if table.len() <= at {
        return Verdict::Differs;
    }
    table[at] = v;
    Verdict::Agrees
}

pub fn put_leaf(leaves: &mut [u8; 32], i: u32, v: u32) -> Verdict
    ensures { (result ≡ cond (ltb i 32) (placed_if (leb v 255)) Verdict.Differs)
        × (leaves.new ≡ cond (ltb i 32) (cond (leb v 255) (set leaves.old i v) leaves.old) leaves.old) }
{
    let at = i as usize;
    if 32 <= at {
        return Verdict::Differs;
    }
    if 255 < v {
        return Verdict::Differs;
    }
    leaves[at] = v as u8;
    Verdict::Agrees
}

// This and the four below are alike, and five: the promise of each names another table, `audit_number .. (set ..) ..`, so that five would stay round one.
pub fn spoil_total(
    state: State,
    i: u32,
    v: u32,
    expected: u32,
    heads: &[u32; 256],
    leaves: &[u8; 32],
    nodes: &[u32],
    pile: &[u32],
) -> Verdict
    ensures { OnlyIf result expected (audit_number (state_put state i v) heads.now leaves.now
        nodes.now pile.now) }
{
    if 5 <= i {
        return Verdict::Differs;
    }
    let spoiled = put_total(state, i, v);
    audit_verdicts::judge(spoiled, expected, heads, leaves, nodes, pile)
}

pub fn spoil_head(
    state: State,
    i: u32,
    v: u32,
    expected: u32,
    heads: &mut [u32; 256],
    leaves: &[u8; 32],
    nodes: &[u32],
    pile: &[u32],
) -> Verdict
    ensures { (OnlyIf result expected
        (audit_number state (set heads.old i v) leaves.now nodes.now pile.now))
        × (heads.new ≡ heads.old) }
{
    let at = i as usize;
    if 256 <= at {
        return Verdict::Differs;
    }
    let old = heads[at];
    heads[at] = v;
    let verdict = audit_verdicts::judge(state, expected, heads, leaves, nodes, pile);
    heads[at] = old;
    verdict
}

pub fn spoil_leaf(
    state: State,
    i: u32,
    v: u32,
    expected: u32,
    heads: &[u32; 256],
    leaves: &mut [u8; 32],
    nodes: &[u32],
    pile: &[u32],
) -> Verdict
    ensures { (OnlyIf result expected
        (audit_number state heads.now (set leaves.old i v) nodes.now pile.now))
        × (leaves.new ≡ leaves.old) }
{
    let at = i as usize;
    if 32 <= at {
        return Verdict::Differs;
    }
    if 255 < v {
        return Verdict::Differs;
    }
    let old = leaves[at];
    leaves[at] = v as u8;
    let verdict = audit_verdicts::judge(state, expected, heads, leaves, nodes, pile);
    leaves[at] = old;
    verdict
}

pub fn spoil_node(
    state: State,
    i: u32,
    v: u32,
    expected: u32,
    heads: &[u32; 256],
    leaves: &[u8; 32],
    nodes: &mut [u32],
    pile: &[u32],
) -> Verdict
    ensures { (OnlyIf result expected
        (audit_number state heads.now leaves.now (set nodes.old i v) pile.now))
        × (nodes.new ≡ nodes.old) }
{
    let at = i as usize;
    if nodes.len() <= at {
        return Verdict::Differs;
    }
    let old = nodes[at];
    nodes[at] = v;
    let verdict = audit_verdicts::judge(state, expected, heads, leaves, nodes, pile);
    nodes[at] = old;
    verdict
}

pub fn spoil_spare(
    state: State,
    i: u32,
    v: u32,
    expected: u32,
    heads: &[u32; 256],
    leaves: &[u8; 32],
    nodes: &[u32],
    pile: &mut [u32],
) -> Verdict
    ensures { (OnlyIf result expected
        (audit_number state heads.now leaves.now nodes.now (set pile.old i v)))
        × (pile.new ≡ pile.old) }
{
    let at = i as usize;
    if pile.len() <= at {
        return Verdict::Differs;
    }
    let old = pile[at];
    pile[at] = v;
    let verdict = audit_verdicts::judge(state, expected, heads, leaves, nodes, pile);
    pile[at] = old;
    verdict
}
