// Parts of a store of bytes: marked as not heard, filled from the front, lent to be read. Each is lent on as a part of the store, from its offset
// to its offset plus its length, so that nothing outside it can be touched.
#![tactic(auto)]

ghost use Rattle.std.specs.Prelude.{◌≡◌, [], ◌++◌, ◌+◌, ◌≤◌, length, drop, replicate};
ghost use Rattle.parts.specs.Bytes.{part_of, over, marked};

// Our mark for not heard.
pub const NOT_HEARD: u8 = 255;

// The bytes are written at the front of the part; that they have room there is asked, since whoever lends a part has tested it. One by one:
// `copy_from_slice` is a `memmove`, which the archives for C do not ask of their host.
pub fn fill_front(part: &mut [u8], bytes: &[u8])
    requires { length bytes.now ≤ length part.old }
    ensures { part.new ≡ bytes.now ++ drop (length bytes.now) part.old }
{
    for i in 0..bytes.len() {
        part[i] = bytes[i];
    }
}

// The part of a fresh grant: every byte of it is our mark for not heard.
pub fn mark(store: &mut [u8], offset: u32, len: u32)
    requires { offset + len ≤ length store.old }
    ensures { store.new ≡ marked store.old offset len }
{
    let start = offset as usize;
    let end = start + (len as usize);
    store[start..end].fill(NOT_HEARD);
}

// The part is lent on, just that, and the bytes are written at its front.
pub fn fill(store: &mut [u8], offset: u32, len: u32, bytes: &[u8])
    requires len_in_bounds { offset + len ≤ length store.old }
    requires bytes_len_bound { length bytes.now ≤ len }
    ensures { store.new ≡ over store.old offset bytes.now }
{
    let start = offset as usize;
    let end = start + (len as usize);
    fill_front(&mut store[start..end], bytes);
}

// The part itself, never a copy.
#[tactic(auto, unfolding(crate::specs::Bytes::part_of))]
pub fn part<'a>(store: &'a [u8], offset: u32, len: u32) -> &'a [u8]
    requires { offset + len ≤ length store.now }
    ensures { result.now ≡ part_of store.now offset len }
{
    let start = offset as usize;
    let end = start + (len as usize);
    &store[start..end]
}

// The part of no bytes.
pub fn no_part<'a>(store: &'a [u8]) -> &'a [u8]
    ensures { result.now ≡ [] }
{
    &store[0..0]
}
