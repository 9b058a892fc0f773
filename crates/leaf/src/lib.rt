// One leaf page (document 01, sections 2, 3 and 5; btree.rs): its judgement. Module find looks for something in
// it, module place says where a new cell goes and where a leaf is cut. Crates `leaf_edit`, `leaf_divide` and
// `leaf_vacuum` change leaves.
#![tactic(auto)]

pub mod find;
pub mod place;

ghost use Rattle.std.specs.Prelude.{◌≡◌, ◌<◌, length};
ghost use Rattle.leaf.specs.Cells.{in_order, judge_cells, judge_leaf};
ghost use Rattle.row.specs.Fault.{cell_fault};
ghost use Rattle.leaf.specs.Steps.Cells.{step_end, step_fault};

use row::{CellFault, Fault};

// Whether key k with creator c may follow key k0 with creator c0: a larger key, or the same and no smaller
// creator.
pub fn in_order(k0: u32, c0: u64, k: u32, c: u64) -> bool
    ensures { result ≡ in_order k0 c0 k c }
{
    if k0 < k {
        return true;
    }
    if k0 != k {
        return false;
    }
    c0 <= c
}

// The fault of the cell at that offset of page p.
pub fn cell_fault(p: u32, at: usize, kind: CellFault) -> Fault
    ensures { result ≡ cell_fault p at kind }
{
    Fault::Cell {
        page: p,
        offset: at,
        kind,
    }
}

// Where the cell at `at` of page p ends, after one of key k and creator c; or the fault of a cell that cannot be read, or is
// out of order. Every walk over a leaf goes by this, so that it judges as it reads; a cell is read whole only where more of
// it is asked. Inlined: a walk calls it for each cell.
#[inline(always)]
pub fn next_cell(pg: &[u8], p: u32, k: u32, c: u64, at: usize) -> Result<usize, Fault>
    ensures { result ≡ step_end pg.now p k c at }
{
    let Some(end) = row::read::cell_end(pg, at) else {
        return Err(fault_at(pg, p, at));
    };
    if in_order(
        k,
        c,
        page::key::get_rank(pg, at),
        row::read::creator_at(pg, at),
    ) {
        return Ok(end);
    }
    Err(row::structural_fault(p))
}

// The fault of a cell that cannot be read.
fn fault_at(pg: &[u8], p: u32, at: usize) -> Fault
    ensures { result ≡ step_fault pg.now p at }
{
    match row::read::read_cell(pg, at) {
        Err(kind) => cell_fault(p, at, kind),
        Ok(_) => row::structural_fault(p),
    }
}

fn judge_cells(pg: &[u8], p: u32, n: usize) -> Result<usize, Fault>
    requires { length pg.now ≡ 4096 }
    ensures { result ≡ judge_cells pg.now p 0 0 n 12 }
{
    let mut at = page::HEADER_SIZE;
    let mut k: u32 = 0;
    let mut c: u64 = 0;
    for _ in 0..n {
        let end = next_cell(pg, p, k, c, at)?;
        k = page::key::get_rank(pg, at);
        c = row::read::creator_at(pg, at);
        at = end;
    }
    Ok(at)
}

// Where the cells of page p end, if it is a leaf with readable cells in order; otherwise its first fault.
pub fn judge_leaf(pg: &[u8], p: u32) -> Result<usize, Fault>
    requires { length pg.now ≡ 4096 }
    ensures { result ≡ judge_leaf pg.now p }
{
    if page::get_node_type(pg) != page::NODE_LEAF {
        return Err(row::structural_fault(p));
    }
    judge_cells(pg, p, page::get_cell_count(pg) as usize)
}
