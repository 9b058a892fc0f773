// Data that the list names by length and seed: rust/oracle/pages/src/data.rs makes the same bytes.

// Fills out, each byte the upper half of the next x.
pub fn fill(out: &mut [u8], seed: u16) {
    let mut x = seed;
    for byte in out {
        x = x.wrapping_mul(25173).wrapping_add(13849);
        *byte = (x >> 8) as u8;
    }
}
