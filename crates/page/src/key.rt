// Signed keys by their ranks (document 01, section 2): only `rank_of` meets a signed number.
ghost use Rattle.std.specs.Prelude.{◌≡◌, ◌+◌, ◌≤◌, length};
ghost use Rattle.store.specs.Le.{put_at};
ghost use Rattle.page.specs.Key.{rank_of, flip, rank_at};

// The rank of a key, key + 2^31: unsigned, and in the keys' signed order. By the wider sum, with no branch on
// the sign.
pub fn rank_of(key: i32) -> u32
    ensures { result ≡ rank_of key }
{
    (key as i64 + 2147483648) as u32
}

// The rank of the key that has these bits; also the bits of the key that has this rank.
pub fn flip32(b: u32) -> u32
    ensures { result ≡ flip b }
{
    if b < 2147483648 {
        b + 2147483648
    } else {
        b - 2147483648
    }
}

// The rank of the key that is stored at offset a.
pub fn get_rank(s: &[u8], a: usize) -> u32
    requires { a + 4 ≤ length s.now }
    ensures { result ≡ rank_at s.now a }
{
    flip32(store::get32(s, a))
}

// Stores the key of that rank at offset a, in four bytes.
pub fn put_rank(s: &mut [u8], a: usize, rank: u32)
    requires { a + 4 ≤ length s.old }
    ensures { s.new ≡ put_at 4 s.old a (flip rank) }
{
    store::put32(s, a, flip32(rank))
}
