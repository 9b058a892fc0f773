// The way up from a leaf (document 01, section 3): by parent links to the root, the page numbers of at most four levels
// collected. Every parent is judged in full and must hold the child; the root's own parent must be 0.
ghost use Rattle.std.specs.Prelude.{◌≡◌, ◌+◌, ◌*◌, ◌≤◌, ◌<◌, length};
ghost use Rattle.tree.specs.Climb.{above_of, climb_of, climbed};

use row::Fault;

// The page numbers of a climb, the leaf's first.
#[derive(Clone, Copy)]
pub struct Path {
    pub pages: [u32; 4],
    pub len: usize,
}

// The page that page p names as its parent, judged, which must hold p.
fn page_above(pool: &[u8], used: u32, p: u32) -> Result<u32, Fault>
    requires { (used * 4096 ≤ length pool.now) × (p < used) }
    ensures { result ≡ above_of pool.now used p }
{
    let q = page::get_parent(page::pool::page_of(pool, p));
    if used <= q {
        return Err(row::structural_fault(q));
    }
    let pg = page::pool::page_of(pool, q);
    let n = inner::judge_inner(pg, q)?;
    if n < inner::child_place(pg, n + 1, p) {
        return Err(row::structural_fault(q));
    }
    Ok(q)
}

// The pages from a leaf up to the root, four at most, the leaf's first; or the fault that ends the climb.
pub fn climb(pool: &[u8], used: u32, root: u32, leaf: u32) -> Result<Path, Fault>
    requires { (used * 4096 ≤ length pool.now) × (leaf < used) }
    ensures { result ≡ climbed (climb_of pool.now used root leaf 3) }
{
    let mut p = leaf;
    let mut path = Path {
        pages: [leaf, 0, 0, 0],
        len: 1,
    };
    while p != root {
        if path.len == path.pages.len() {
            return Err(row::structural_fault(p));
        }
        p = page_above(pool, used, p)?;
        path.pages[path.len] = p;
        path.len += 1;
    }
    if page::get_parent(page::pool::page_of(pool, root)) != 0 {
        return Err(row::structural_fault(root));
    }
    Ok(path)
}
