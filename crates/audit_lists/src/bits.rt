// The two levels of bits, made anew from the heads of the lists and compared with those that are kept.
ghost use Rattle.std.specs.Prelude.{◌≡◌, ◌+◌, ◌*◌, ◌<◌, ◌≤◌};
ghost use Rattle.tables.specs.Linked.{non_zero};
ghost use Rattle.tables.specs.Calls.{edition32};
ghost use Rattle.audit_words.specs.Bits.{head_bit, leaf_of, top_of, leaves_from, bits_agree};

use records::nodes;

// 1 where a list holds something.
fn head_bit(head: u32) -> u32
    ensures { (result ≡ head_bit edition32 head) × (result ≤ 1) }
{
    if head == nodes::NONE {
        return 0;
    }
    1
}

fn non_zero(leaf: u8) -> u32
    ensures { (result ≡ non_zero leaf) × (result ≤ 1) }
{
    if leaf == 0 {
        return 0;
    }
    1
}

// The bits of eight lists, of classes 8 t to 8 t + 7.
fn leaf_of(bin_indices: &[u32; 256], t: u32) -> u32
    requires { t < 32 }
    ensures { result ≡ leaf_of edition32 bin_indices.now t }
{
    let mut m: u32 = 0;
    for i in (0..8u32).rev() {
        let c = (8 * t + i) as usize;
        m = m * 2 + head_bit(bin_indices[c]);
    }
    m
}

fn top_of(used_bins: &[u8; 32]) -> u32
    ensures { result ≡ top_of used_bins.now }
{
    let mut m: u32 = 0;
    for t in (0..32u32).rev() {
        let i = t as usize;
        m = m * 2 + non_zero(used_bins[i]);
    }
    m
}

fn leaves_agree(bin_indices: &[u32; 256], used_bins: &[u8; 32]) -> bool
    ensures { result ≡ leaves_from edition32 32 bin_indices.now used_bins.now 0 }
{
    for t in 0..32u32 {
        let i = t as usize;
        if u32::from(used_bins[i]) != leaf_of(bin_indices, t) {
            return false;
        }
    }
    true
}

pub fn bits_agree(bin_indices: &[u32; 256], used_bins: &[u8; 32], used_bins_top: u32) -> bool
    ensures { result ≡ bits_agree edition32 bin_indices.now used_bins.now used_bins_top }
{
    if !leaves_agree(bin_indices, used_bins) {
        return false;
    }
    used_bins_top == top_of(used_bins)
}
