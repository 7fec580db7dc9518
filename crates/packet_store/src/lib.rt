// What becomes of one store of the two, in place: its allocator's call, and its bytes. The layer above has tested that the bytes are as many as the
// allocator's size, and these functions require it.
#![tactic(auto)]

ghost use Rattle.std.specs.Prelude.{◌≡◌, ◌||◌, List, ℕ, ◌+◌, ◌^◌, ◌≤◌, ◌<◌, ltb, length};
ghost use Rattle.ledger.specs.Ledger.{length_is, granted};
ghost use Rattle.tables.specs.Calls.{edition32};
ghost use Rattle.answers.specs.Asked.{request_of, token_of};
ghost use Rattle.answers.specs.Answers.{take_says, size_says};
ghost use Rattle.packets.specs.Stores.{store_of};
ghost use Rattle.packets.specs.OneStore.{fresh_bytes, inside_size, filled_by, take_in, length_in, fill_in, read_in};
ghost use Rattle.packets.specs.Calls.{plainly};
ghost use Rattle.packets.specs.Answers.{done_says};

use answers::{Allocation, Refusal};
use packets::PacketRefusal;
use records::answered::Answered;
use records::totals::Totals;
use small_float::Size;

// Whether either store is shorter in bytes than this size of its allocator: refusal 9, before anything else in every call.
pub fn too_short(on_size: u32, on_bytes: &[u8], ex_size: u32, ex_bytes: &[u8]) -> bool
    ensures value { result ≡ (ltb (length on_bytes.now) on_size || ltb (length ex_bytes.now) ex_size) }
    ensures on_size_bound { (on_size < 2 ^ 32) × (ex_size < 2 ^ 32) }
{
    on_bytes.len() < on_size as usize || ex_bytes.len() < ex_size as usize
}

// Every byte of a fresh grant is set to 255; nothing else is touched, and where nothing was granted nothing at all.
fn mark_grant(answer: Result<Allocation, Refusal>, size: Size, bytes: &mut [u8])
    requires { (o r : ℕ) → take_says answer ≡ granted o r → o + size.0 ≤ length bytes.old }
    ensures { bytes.new ≡ fresh_bytes (take_says answer) size.0 bytes.old }
{
    match answer {
        Ok(span) => parts::mark(bytes, span.offset, size.0),
        Err(_) => {}
    }
}

// A span, and its bytes marked as not heard.
pub fn take(
    t: Totals,
    size: Size,
    bin_indices: &mut [u32; 256],
    used_bins: &mut [u8; 32],
    nodes: &mut [u32],
    free_nodes: &[u32],
    bytes: &mut [u8],
) -> Answered<Allocation>
    requires { t.size ≤ length bytes.old }
    ensures { (
      take_says result.answer,
      store_of result.totals bin_indices.new used_bins.new nodes.new
          free_nodes.now bytes.new,
    )
        ≡ take_in edition32 (request_of size) (store_of t bin_indices.old used_bins.old nodes.old
        free_nodes.now bytes.old) }
{
    let taken = taking::allocate(t, size, bin_indices, used_bins, nodes, free_nodes);
    let answer = taken.answer;
    mark_grant(answer, size, bytes);
    taken
}

// A length that the words tell, or 6 where from this offset it would pass the size.
fn inside(size: u32, offset: u32, n: Size) -> Result<Size, Refusal>
    ensures { size_says result ≡ inside_size size offset (length_is n.0) }
{
    let end = offset as usize + n.0 as usize;
    if (size as usize) < end {
        return Err(Refusal::Unsound);
    }
    Ok(n)
}

// The length of a packet in this store; whatever the words say, no packet passes the store's size.
pub fn length_of(
    t: Totals,
    span: Allocation,
    bin_indices: &[u32; 256],
    used_bins: &[u8; 32],
    nodes: &[u32],
    free_nodes: &[u32],
) -> Result<Size, Refusal>
    ensures { (bytes : List ℕ) → size_says result ≡ length_in edition32 (token_of span)
        (store_of t bin_indices.now used_bins.now nodes.now free_nodes.now bytes) }
{
    let n = asking::allocation_size(t, span, bin_indices, used_bins, nodes, free_nodes)?;
    inside(t.size, span.offset, n)
}

// More bytes than the packet holds is 17, and nothing is written; fewer fill its front.
fn fill_part(offset: u32, n: Size, new: &[u8], bytes: &mut [u8]) -> Result<(), PacketRefusal>
    requires { offset + n.0 ≤ length bytes.old }
    ensures { (done_says result, bytes.new) ≡ plainly (filled_by (length_is n.0) offset new.now bytes.old) }
{
    let len = n.0;
    if (len as usize) < new.len() {
        return Err(PacketRefusal::TooManyBytes);
    }
    parts::fill(bytes, offset, len, new);
    Ok(())
}

// The packet's own bytes are lent on to be written, or why not.
pub fn fill(
    t: Totals,
    span: Allocation,
    new: &[u8],
    bin_indices: &[u32; 256],
    used_bins: &[u8; 32],
    nodes: &[u32],
    free_nodes: &[u32],
    bytes: &mut [u8],
) -> Result<(), PacketRefusal>
    requires { t.size ≤ length bytes.old }
    ensures { (
      done_says result,
      store_of t bin_indices.now used_bins.now nodes.now free_nodes.now
          bytes.new,
    )
        ≡ plainly (fill_in edition32 (token_of span) new.now
        (store_of t bin_indices.now used_bins.now nodes.now free_nodes.now bytes.old)) }
{
    let n = length_of(t, span, bin_indices, used_bins, nodes, free_nodes)?;
    fill_part(span.offset, n, new, bytes)
}

// The packet's own bytes, lent to be read; none where the call for its length is refused.
pub fn read<'a>(
    t: Totals,
    span: Allocation,
    bin_indices: &[u32; 256],
    used_bins: &[u8; 32],
    nodes: &[u32],
    free_nodes: &[u32],
    bytes: &'a [u8],
) -> &'a [u8]
    requires { t.size ≤ length bytes.now }
    ensures { result.now ≡ read_in edition32 (token_of span)
        (store_of t bin_indices.now used_bins.now nodes.now free_nodes.now bytes.now) }
{
    match length_of(t, span, bin_indices, used_bins, nodes, free_nodes) {
        Err(_) => parts::no_part(bytes),
        Ok(n) => parts::part(bytes, span.offset, n.0),
    }
}
