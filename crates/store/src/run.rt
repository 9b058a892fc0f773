// Runs of bytes in a lent slice: copy in, shift either way, and zeros.
// `shift` also copies between two pages of one pool: both places are offsets into it.
ghost use Rattle.std.specs.Prelude.{◌≡◌, ◌+◌, ◌-◌, ◌≤◌, length};
ghost use Rattle.store.specs.Part.{part, put, zeros};

// Stores all of new from offset `at` on.
pub fn copy_in(d: &mut [u8], at: usize, new: &[u8])
    requires { at + length new.now ≤ length d.old }
    ensures { d.new ≡ put at new.now d.old }
{
    for (j, byte) in new.iter().enumerate() {
        d[at + j] = *byte;
    }
}

// Zeros from one offset up to the other.
pub fn zero_fill(d: &mut [u8], from: usize, to: usize)
    requires { (from ≤ to) × (to ≤ length d.old) }
    ensures { d.new ≡ put from (zeros (to - from)) d.old }
{
    d[from..to].fill(0);
}

// Copies n bytes from offset src to offset dst; the two places may overlap.
#[tactic(auto, using(crate::proofs::PutLaws::put_copied, crate::proofs::PutLaws::front_first, crate::proofs::PutLaws::back_first))]
pub fn shift(d: &mut [u8], src: usize, dst: usize, n: usize)
    requires { (src + n ≤ length d.old) × (dst + n ≤ length d.old) }
    ensures { d.new ≡ put dst (part src n d.old) d.old }
{
    d.copy_within(src..src + n, dst);
}
