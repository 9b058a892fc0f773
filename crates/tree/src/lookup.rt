// From the root to what a key's chain says (document 01, sections 5 and 6): down by the search rule, then along the chain.
ghost use Rattle.std.specs.Prelude.{◌≡◌, true, ◌*◌, ◌≤◌, length};
ghost use Rattle.mvcc.specs.Snapshot.{lookup};
ghost use Rattle.tree.specs.Descend.{descend_of};
ghost use Rattle.tree.specs.Lookup.{best_in_tree, test_in_tree, in_pool};
ghost use Rattle.tree.specs.declared.Route.{Route};

use crate::Route;
use leaf::find::Best;
use mvcc::{JudgedSnapshot, JudgedStatuses};
use row::{Cell, Fault, Version};

// Where search comes to: left of an equal separator, so that older versions there are not lost.
fn search_leaf(pool: &[u8], used: u32, root: u32, key: u32) -> Result<u32, Fault>
    requires { used * 4096 ≤ length pool.now }
    ensures { result ≡ descend_of pool.now used root (Route.Search key) 3 }
{
    crate::descend(pool, used, root, Route::Search(key))
}

// The newest visible version of the key.
pub fn best_in_tree(
    pool: &[u8],
    used: u32,
    root: u32,
    key: u32,
    snapshot: &JudgedSnapshot<'_>,
    statuses: &JudgedStatuses<'_>,
) -> Result<Best, Fault>
    requires { used * 4096 ≤ length pool.now }
    ensures { result ≡ best_in_tree pool.now used root key snapshot.now (lookup statuses.now) }
{
    let first = search_leaf(pool, used, root, key)?;
    crate::best_along(pool, used, first, key, snapshot, statuses)
}

// Whether some version of the key meets the conflict test, or claim's own.
pub fn test_in_tree(
    pool: &[u8],
    used: u32,
    root: u32,
    key: u32,
    snapshot: &JudgedSnapshot<'_>,
    statuses: &JudgedStatuses<'_>,
    claiming: bool,
    seen: u64,
) -> Result<bool, Fault>
    requires { used * 4096 ≤ length pool.now }
    ensures { result ≡ test_in_tree pool.now used root key snapshot.now (lookup statuses.now) claiming seen }
{
    let first = search_leaf(pool, used, root, key)?;
    crate::test_along(pool, used, first, key, snapshot, statuses, claiming, seen)
}

// The version of a cell of page p, the place of its data counted from the pool's first byte.
pub fn version_in_pool(p: u32, c: Cell) -> Version
    requires { c.version.start ≤ 4096 }
    ensures { result ≡ in_pool p c }
{
    let v = c.version;
    Version {
        start: p as usize * page::PAGE_SIZE + v.start,
        ..v
    }
}
