// Runs of bytes.

// From a first one up, modulo 256.
pub fn write(bytes: &mut [u8], first: u8) {
    let mut next = first;
    for byte in bytes.iter_mut() {
        *byte = next;
        next = next.wrapping_add(1);
    }
}
