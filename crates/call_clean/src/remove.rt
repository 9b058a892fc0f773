// Every version of a key taken out of the leaves that search meets (document 01, sections 5 and 6; btree.rs,
// remove_all_versions): a walk that judges and counts, and a walk that stores.
ghost use Rattle.std.specs.Prelude.{◌≡◌, ◌+◌, ◌*◌, ◌≤◌, ◌<◌, length};
ghost use Rattle.page.specs.Header.{cell_count};
ghost use Rattle.call_clean.specs.Remove.{count_along, removed_along};
ghost use Rattle.call_clean.specs.Steps.Remove.{without_run};

use leaf::find::Run;
use page::PAGE_SIZE;
use row::Fault;

// How many versions of the key search meets from page `first` on, every leaf judged; or the first fault.
pub fn count_along(pool: &[u8], used: u32, first: u32, key: u32) -> Result<usize, Fault>
    requires { (used * 4096 ≤ length pool.now) × (used ≤ 65536) }
    ensures { result ≡ count_along pool.now used first key }
{
    let mut p = first;
    let mut count: usize = 0;
    for _ in 0..used {
        if used <= p {
            return Err(row::structural_fault(p));
        }
        let pg = page::pool::page_of(pool, p);
        let (run, _, larger) = leaf::find::run_in_leaf(pg, p, key)?;
        let next = page::get_next_leaf(pg);
        count += run.count;
        if larger || next == 0 {
            return Ok(count);
        }
        p = next;
    }
    Err(row::structural_fault(p))
}

// The cells of the run, of cells that end at e; a page without them is not written.
fn take_run(pg: &mut [u8], run: Run, e: usize)
    requires { (length pg.old ≡ 4096) × (12 ≤ run.from) × (run.from ≤ run.to) × (run.to ≤ e) × (e ≤ 4096) × (run.count ≤ cell_count pg.old) }
    ensures { pg.new ≡ without_run run e pg.old }
{
    let n = page::get_cell_count(pg) as usize;
    if run.count != 0 {
        leaf_edit::take_out(pg, run.from, run.to, run.count, e, n);
    }
}

// Takes the key's cells out of every leaf that this walk meets; a leaf without any is not written.
pub fn remove_along(pool: &mut [u8], used: u32, first: u32, key: u32)
    requires { used * 4096 ≤ length pool.old }
    ensures { pool.new ≡ removed_along pool.old used first key used }
{
    let mut p = first;
    for _ in 0..used {
        if used <= p {
            return;
        }
        let start = p as usize * PAGE_SIZE;
        let pg = &mut pool[start..start + PAGE_SIZE];
        let Ok((run, end, larger)) = leaf::find::run_in_leaf(pg, p, key) else {
            return;
        };
        let next = page::get_next_leaf(pg);
        take_run(pg, run, end);
        if larger || next == 0 {
            return;
        }
        p = next;
    }
}
