// Vacuum along the chain of leaves (document 01, section 5; btree.rs, vacuum_deleted_versions): a walk that judges, and a walk
// that stores.
ghost use Rattle.std.specs.Prelude.{◌≡◌, ◌*◌, ◌≤◌, length};
ghost use Rattle.mvcc.specs.Snapshot.{lookup};
ghost use Rattle.call_answers.specs.Answer.{ended};
ghost use Rattle.call_clean.specs.Vacuum.{judged_along, vacuumed_along};

use mvcc::JudgedStatuses;
use page::PAGE_SIZE;
use row::Fault;

// Whether every leaf along the chain from page `first` to its end is judged well; or the first fault.
pub fn judge_along(pool: &[u8], used: u32, first: u32) -> Result<(), Fault>
    requires { used * 4096 ≤ length pool.now }
    ensures { result ≡ judged_along pool.now used first }
{
    let mut p = first;
    for _ in 0..used {
        if used <= p {
            return Err(row::structural_fault(p));
        }
        let pg = page::pool::page_of(pool, p);
        leaf::judge_leaf(pg, p)?;
        let next = page::get_next_leaf(pg);
        if next == 0 {
            return Ok(());
        }
        p = next;
    }
    Err(row::structural_fault(p))
}

// Vacuums every leaf along the chain from page `first` on, and answers how many versions were dropped.
pub fn vacuum_along(
    pool: &mut [u8],
    used: u32,
    first: u32,
    statuses: &JudgedStatuses<'_>,
    bound: u64,
) -> usize
    requires { (used * 4096 ≤ length pool.old) × (used ≤ 65536) }
    ensures { ended result pool.new ≡ vacuumed_along pool.old used first (lookup statuses.now) bound used 0 }
{
    let mut p = first;
    let mut dropped: usize = 0;
    for _ in 0..used {
        if used <= p {
            return dropped;
        }
        let start = p as usize * PAGE_SIZE;
        let pg = &mut pool[start..start + PAGE_SIZE];
        let Ok(end) = leaf::judge_leaf(pg, p) else {
            return dropped;
        };
        let next = page::get_next_leaf(pg);
        let n = page::get_cell_count(pg) as usize;
        dropped += leaf_vacuum::vacuum_leaf(pg, statuses, bound, end, n).dropped;
        if next == 0 {
            return dropped;
        }
        p = next;
    }
    dropped
}
