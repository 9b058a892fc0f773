// Where a new cell goes, and where an overfull leaf is cut (document 01, section 5; btree.rs, split_leaf).
ghost use Rattle.std.specs.Prelude.{◌≡◌, ◌≤◌, ◌<◌, length};
ghost use Rattle.leaf.specs.Cells.{cells_of};
ghost use Rattle.leaf.specs.Place.{past_cell, place_leaf, larger_side, better_cut, cut_step, cut_after, sizes_of, cut_leaf, cut_fits};

use row::Fault;

// The offset of a new cell, and how many cells stand before it.
#[derive(Clone, Copy)]
pub struct Place {
    pub at: usize,
    pub before: usize,
}

// How many cells, and how many of their bytes, stay on the left.
#[derive(Clone, Copy)]
pub struct Cut {
    pub cells: usize,
    pub bytes: usize,
}

// The cells passed so far, and the best cut among them.
#[derive(Clone, Copy)]
pub struct Cutting {
    pub left: Cut,
    pub best: Cut,
}

fn past(key: u32, creator: u64, here: Place, k: u32, c: u64, next: usize) -> Place
    requires { here.before < 65536 }
    ensures { result ≡ past_cell key creator here k c next }
{
    if crate::in_order(k, c, key, creator) {
        let before = here.before + 1;
        return Place { at: next, before };
    }
    here
}

// Judges the leaf and finds the place of a new version in one pass.
pub fn place_in_leaf(pg: &[u8], p: u32, key: u32, creator: u64) -> Result<(Place, usize), Fault>
    requires { length pg.now ≡ 4096 }
    ensures { result ≡ place_leaf pg.now p key creator }
{
    if page::get_node_type(pg) != page::NODE_LEAF {
        return Err(row::structural_fault(p));
    }
    let count = page::get_cell_count(pg);
    let mut at = page::HEADER_SIZE;
    let mut k: u32 = 0;
    let mut c: u64 = 0;
    let mut here = Place {
        at: page::HEADER_SIZE,
        before: 0,
    };
    for _ in 0..count {
        let end = crate::next_cell(pg, p, k, c, at)?;
        k = page::key::get_rank(pg, at);
        c = row::read::creator_at(pg, at);
        here = past(key, creator, here, k, c, end);
        at = end;
    }
    Ok((here, at))
}

fn larger_side(t: usize, cut: Cut) -> usize
    ensures { result ≡ larger_side t cut }
{
    let l = cut.bytes;
    if t < l {
        return l;
    }
    let r = t - l;
    if l < r { r } else { l }
}

fn better_cut(t: usize, earlier: Cut, later: Cut) -> Cut
    ensures { result ≡ better_cut t earlier later }
{
    if larger_side(t, later) < larger_side(t, earlier) {
        return later;
    }
    earlier
}

fn cut_step(t: usize, here: Cutting, x: usize) -> Cutting
    requires { (here.left.cells < 65536) × (here.left.bytes < 65536) × (x < 65536) }
    ensures { result ≡ cut_step t here x }
{
    let left = here.left;
    let best = here.best;
    Cutting {
        left: Cut {
            cells: left.cells + 1,
            bytes: left.bytes + x,
        },
        best: better_cut(t, best, left),
    }
}

// Past n cells of the page from `from` on.
fn cut_cells(pg: &[u8], t: usize, start: Cutting, n: usize, from: usize) -> Cutting
    requires { (length pg.now ≡ 4096) × (from ≤ 4096) × (n < 32768) × (start.left.cells < 32768) × (start.left.bytes < 32768) }
    ensures { result ≡ cut_after t start (sizes_of (cells_of pg.now n from)) }
{
    let mut at = from;
    let mut here = start;
    for _ in 0..n {
        let Ok(x) = row::read::read_cell(pg, at) else {
            return here;
        };
        here = cut_step(t, here, x.next - x.at);
        at = x.next;
    }
    here
}

// Of a leaf, t bytes in all, in which a cell of m bytes stands after the first cells, and others follow from b on.
pub fn cut_leaf(pg: &[u8], t: usize, before: usize, b: usize, after: usize, m: usize) -> Cut
    requires { (length pg.now ≡ 4096) × (b ≤ 4096) × (before < 16384) × (after < 16384) × (m ≤ 4096) }
    ensures { result ≡ cut_leaf pg.now t before b after m }
{
    let none = Cut { cells: 0, bytes: 0 };
    let first = cut_cells(
        pg,
        t,
        Cutting {
            left: none,
            best: none,
        },
        before,
        page::HEADER_SIZE,
    );
    let there = cut_step(t, first, m);
    let last = cut_cells(pg, t, there, after, b);
    last.best
}

// Whether both sides of the cut, of t bytes in all, hold cells and fit a leaf; otherwise it is Undividable.
pub fn cut_fits(t: usize, cut: Cut) -> bool
    ensures { result ≡ cut_fits t cut }
{
    if cut.cells < 1 {
        return false;
    }
    larger_side(t, cut) <= page::LEAF_ROOM
}
