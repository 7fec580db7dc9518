// The scratch table: a word to a record, 1 where the record is spare.
ghost use Rattle.std.specs.Prelude.{◌≡◌, ◌<◌, ◌≤◌, length, get_or, set};
ghost use Rattle.audit_words.specs.Scratch.{cleared};

use answers::Handle;

// 0 in every word below the count. That the scratch has as many the audit's gate has tested.
pub fn clear(scratch: &mut [u32], max_allocs: u32)
    requires { max_allocs ≤ length scratch.old }
    ensures { scratch.new ≡ cleared max_allocs scratch.old }
{
    let n = max_allocs as usize;
    for i in 0..n {
        scratch[i] = 0;
    }
}

// What stands there for record r, which the caller has found to be below the count.
pub fn marked(scratch: &[u32], r: Handle) -> u32
    requires { r.0 < length scratch.now }
    ensures { result ≡ get_or scratch.now r.0 0 }
{
    scratch[r.0 as usize]
}

// Record r is spare; the caller has found it to be below the count.
pub fn mark(scratch: &mut [u32], r: Handle)
    requires { r.0 < length scratch.old }
    ensures { scratch.new ≡ set scratch.old r.0 1 }
{
    scratch[r.0 as usize] = 1;
}
