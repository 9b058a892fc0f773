// Numbers of 1, 2, 4 and 8 bytes in a lent byte slice, little-endian (document 01, section 2; page.rs).
// Each read and write is one equation to one definition over the width; module run moves runs of bytes.
// The compiler makes one load or one store of each.
#![tactic(auto)]

pub mod run;

ghost use Rattle.std.specs.Prelude.{◌≡◌, ◌+◌, ◌≤◌, length};
ghost use Rattle.store.specs.Le.{le_at, put_at};

// The byte at offset a.
pub fn get8(s: &[u8], a: usize) -> u8
    requires { a + 1 ≤ length s.now }
    ensures { result ≡ le_at 1 s.now a }
{
    s[a]
}

// The number in the two bytes at offset a, the lowest first.
pub fn get16(s: &[u8], a: usize) -> u16
    requires { a + 2 ≤ length s.now }
    ensures { result ≡ le_at 2 s.now a }
{
    u16::from_le_bytes(s[a..a + 2].try_into().unwrap())
}

// The number in the four bytes at offset a, the lowest first.
pub fn get32(s: &[u8], a: usize) -> u32
    requires { a + 4 ≤ length s.now }
    ensures { result ≡ le_at 4 s.now a }
{
    u32::from_le_bytes(s[a..a + 4].try_into().unwrap())
}

// The number in the eight bytes at offset a, the lowest first.
pub fn get64(s: &[u8], a: usize) -> u64
    requires { a + 8 ≤ length s.now }
    ensures { result ≡ le_at 8 s.now a }
{
    u64::from_le_bytes(s[a..a + 8].try_into().unwrap())
}

// A call, not a raw store: between other calls it leaves its caller nothing to show of the length.
pub fn put8(s: &mut [u8], a: usize, x: u8)
    requires { a + 1 ≤ length s.old }
    ensures { s.new ≡ put_at 1 s.old a x }
{
    s[a] = x;
}

// Stores x in the two bytes at offset a, the lowest first.
pub fn put16(s: &mut [u8], a: usize, x: u16)
    requires { a + 2 ≤ length s.old }
    ensures { s.new ≡ put_at 2 s.old a x }
{
    s[a..a + 2].copy_from_slice(&x.to_le_bytes());
}

// Stores x in the four bytes at offset a, the lowest first.
pub fn put32(s: &mut [u8], a: usize, x: u32)
    requires { a + 4 ≤ length s.old }
    ensures { s.new ≡ put_at 4 s.old a x }
{
    s[a..a + 4].copy_from_slice(&x.to_le_bytes());
}

// Stores x in the eight bytes at offset a, the lowest first.
pub fn put64(s: &mut [u8], a: usize, x: u64)
    requires { a + 8 ≤ length s.old }
    ensures { s.new ≡ put_at 8 s.old a x }
{
    s[a..a + 8].copy_from_slice(&x.to_le_bytes());
}
