// Vacuum of one leaf (document 01, section 5; btree.rs, vacuum_deleted_versions): cell by cell in place on the lent page.
#![tactic(auto)]

ghost use Rattle.std.specs.Prelude.{◌≡◌, false, ◌≤◌, ◌<◌, length, Ok};
ghost use Rattle.row.specs.Read.{cell_at};
ghost use Rattle.row.specs.Write.{stamp_len};
ghost use Rattle.mvcc.specs.Snapshot.{lookup};
ghost use Rattle.page.specs.Header.{cell_count};
ghost use Rattle.leaf.specs.Cells.{judge_leaf};
ghost use Rattle.leaf_vacuum.specs.Vacuum.{vacuumed_leaf};
ghost use Rattle.leaf_vacuum.specs.Steps.Vacuum.{without_stamp};

use mvcc::JudgedStatuses;
use mvcc::vacuum::Fate;
use row::Cell;

// How many cells went, and whether the page changed.
#[derive(Clone, Copy)]
pub struct Vacuumed {
    pub dropped: usize,
    pub changed: bool,
}

// The stamp taken off the cell c, of cells that end at e: 8 bytes less.
fn unstamp_cell(pg: &mut [u8], e: usize, c: Cell)
    requires { (length pg.old ≡ 4096) × (cell_at pg.old c.at ≡ Ok c) × (12 ≤ c.at) × (c.next ≤ e) × (e ≤ 4096) × (stamp_len c.version.stamp ≡ 9) }
    ensures { pg.new ≡ without_stamp e c pg.old }
{
    let at = c.at;
    let n = (c.next - at - 16) as u32;
    leaf_edit::open_gap(pg, at + 18, at + 26, e, 0);
    store::put32(pg, at + 4, n);
    store::put8(pg, at + 17, 0);
}

// Vacuum at that bound, in place, of the n cells of a leaf that was judged, which end at e: how many went, and whether the page
// changed.
pub fn vacuum_leaf(
    pg: &mut [u8],
    statuses: &JudgedStatuses<'_>,
    bound: u64,
    e: usize,
    n: usize,
) -> Vacuumed
    requires { (length pg.old ≡ 4096) × (n ≡ cell_count pg.old) × (n < 65536) × (judge_leaf pg.old 0 ≡ Ok e) }
    ensures { (result ≡ (vacuumed_leaf pg.old (lookup statuses.now) bound).told)
        × (pg.new ≡ (vacuumed_leaf pg.old (lookup statuses.now) bound).page) }
{
    let mut at = page::HEADER_SIZE;
    let mut end = e;
    let mut count = n;
    let mut dropped = 0;
    let mut changed = false;
    for _ in 0..n {
        let Ok(c) = row::read::read_cell(pg, at) else {
            return Vacuumed { dropped, changed };
        };
        match statuses.fate_of(bound, c.version.creator, c.version.stamp) {
            Fate::Same => at = c.next,
            Fate::Dropped => {
                leaf_edit::take_out(pg, at, c.next, 1, end, count);
                end -= c.next - c.at;
                count -= 1;
                dropped += 1;
                changed = true;
            }
            Fate::Cleared => {
                unstamp_cell(pg, end, c);
                at = c.next - 8;
                end -= 8;
                changed = true;
            }
        }
    }
    Vacuumed { dropped, changed }
}
