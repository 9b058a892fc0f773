// The source of numbers: x becomes 48271 x modulo 2^31 - 1 at each choice, and a choice among n is x modulo n.
// rust/oracle/visibility/src/draw.rs is the same in Rust.
ghost use Rattle.std.specs.Prelude.{◌<◌, length};

#[derive(Drop)]
pub struct Draw {
    x: u32,
}

impl Draw {
    // The source at its start, where x is 1.
    pub fn new() -> Self {
        Draw { x: 1 }
    }

    // A number below n.
    pub fn below(&mut self, n: usize) -> usize
        requires { 0 < n }
        ensures { result < n }
    {
        let x = u64::from(self.x) * 48271 % 2147483647;
        self.x = x as u32;
        x as usize % n
    }

    // One of list.
    pub fn one_of(&mut self, list: &[u64]) -> u64
        requires { 0 < length list.now }
    {
        list[self.below(list.len())]
    }

    // One of list or, as often, one of other.
    pub fn either(&mut self, list: &[u64], other: &[u64]) -> u64
        requires { (0 < length list.now) × (0 < length other.now) }
    {
        let chosen = if self.below(2) == 0 { list } else { other };
        self.one_of(chosen)
    }
}
