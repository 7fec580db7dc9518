// The audit: do the words stand for a ledger? docs/AUDIT.md says what it asks and what it tests.
#![tactic(auto)]

ghost use Rattle.std.specs.Prelude.{◌≡◌, ℕ, ◌≤◌, ◌<◌, ◌+◌, List, length};
ghost use Rattle.tables.specs.Calls.{edition32};
ghost use Rattle.tables.specs.Room.{Room, OfHead};
ghost use Rattle.records.specs.InWords.{words_of, HasRoom};
ghost use Rattle.audit_words.specs.Scratch.{cleared};
ghost use Rattle.audit_words.specs.Audit.{records_are_sound, words_are_sound, behind_gate};
ghost use Rattle.audit_words.specs.Promise.{AuditPromise};
ghost use Rattle.answers.specs.Answers.{audit_says};

use answers::Refusal;
use audit_chain::marked::Marked;
use audit_chain::{chain, scratch, spares};
use audit_lists::{bits, lists};
use records::totals::Totals;

// Chain, lists and bits, once the spare records are marked.
fn records_are_sound(
    t: Totals,
    bin_indices: &[u32; 256],
    used_bins: &[u8; 32],
    nodes: &[u32],
    scratch: &[u32],
) -> bool
    requires has_room { HasRoom t.max_allocs nodes.now }
    requires max_allocs_in_bounds { t.max_allocs ≤ length scratch.now }
    requires max_allocs_bound { t.max_allocs ≤ edition32.limit }
    requires free_offset_bound { t.free_offset + 1 < t.max_allocs }
    ensures { (pile : List ℕ) → result
        ≡ records_are_sound edition32 (words_of t bin_indices.now used_bins.now nodes.now pile) scratch.now }
{
    let marked = Marked {
        nodes,
        scratch,
        max_allocs: t.max_allocs,
    };
    let first = chain::first_record(marked);
    let end = chain::walk_from(marked, t.size, first);
    if !chain::walk_ends(t, end) {
        return false;
    }
    if !lists::lists_are_sound(marked, bin_indices, end.frees) {
        return false;
    }
    bits::bits_agree(bin_indices, used_bins, t.used_bins_top)
}

// All of it, with a scratch that is clear up to the count.
fn words_are_sound(
    t: Totals,
    bin_indices: &[u32; 256],
    used_bins: &[u8; 32],
    nodes: &[u32],
    free_nodes: &[u32],
    scratch: &mut [u32],
) -> bool
    requires room { Room edition32 t.max_allocs (length nodes.now) (length free_nodes.now) }
    requires max_allocs_in_bounds { t.max_allocs ≤ length scratch.old }
    ensures value { result
        ≡ words_are_sound edition32
        (words_of t bin_indices.now used_bins.now nodes.now free_nodes.now)
        scratch.old }
    ensures scratch_unchanged { cleared t.max_allocs scratch.new ≡ cleared t.max_allocs scratch.old }
{
    if t.max_allocs - 1 <= t.free_offset {
        return false;
    }
    let spares = t.free_offset + 1;
    if !spares::mark_spares(nodes, free_nodes, scratch, t.max_allocs, spares) {
        return false;
    }
    records_are_sound(t, bin_indices, used_bins, nodes, scratch)
}

fn verdict(sound: bool) -> Result<(), Refusal>
    ensures { audit_says result ≡ Rattle.audit_words.specs.Audit.verdict sound }
{
    if sound {
        return Ok(());
    }
    Err(Refusal::Unsound)
}

// The scratch's length comes last; its words are cleared before and after.
fn behind_gate(
    t: Totals,
    bin_indices: &[u32; 256],
    used_bins: &[u8; 32],
    nodes: &[u32],
    free_nodes: &[u32],
    scratch: &mut [u32],
) -> Result<(), Refusal>
    requires { Room edition32 t.max_allocs (length nodes.now) (length free_nodes.now) }
    ensures { (audit_says result, scratch.new)
        ≡ behind_gate edition32
        (words_of t bin_indices.now used_bins.now nodes.now free_nodes.now)
        scratch.old }
{
    let n = t.max_allocs;
    if scratch.len() < n as usize {
        return Err(Refusal::TableTooShort);
    }
    scratch::clear(scratch, n);
    let sound = words_are_sound(t, bin_indices, used_bins, nodes, free_nodes, scratch);
    scratch::clear(scratch, n);
    verdict(sound)
}

// What the types of a head's parts say of its words, whatever tables go with them.
fn of_head(t: Totals, bin_indices: &[u32; 256], used_bins: &[u8; 32])
    ensures { (nodes pile : List ℕ) → OfHead edition32 (words_of t bin_indices.now used_bins.now nodes pile) }
{}

// Sound, or the refusal: 6 for the count, 2 for a table too short, 6 for words that stand for no ledger.
pub fn audit(
    t: Totals,
    bin_indices: &[u32; 256],
    used_bins: &[u8; 32],
    nodes: &[u32],
    free_nodes: &[u32],
    scratch: &mut [u32],
) -> Result<(), Refusal>
    ensures { AuditPromise edition32
        (words_of t bin_indices.now used_bins.now nodes.now free_nodes.now)
        scratch.old scratch.new (audit_says result) }
{
    of_head(t, bin_indices, used_bins);
    records::gate::test(t.max_allocs, nodes, free_nodes, Refusal::Unsound)?;
    behind_gate(t, bin_indices, used_bins, nodes, free_nodes, scratch)
}
