// A new tree (document 01, section 6, create): the next page becomes an empty leaf that is the root.
ghost use Rattle.std.specs.Prelude.{◌≡◌, ◌+◌, ◌*◌, ◌≤◌, ◌<◌, length};
ghost use Rattle.page.specs.Header.{with_node_type, with_is_root};
ghost use Rattle.tree.specs.Create.{rooted, created_pool};

use page::pool::State;

// A page of zeros becomes an empty leaf that is the root.
fn write_root(pg: &mut [u8])
    requires { length pg.old ≡ 4096 }
    ensures { pg.new ≡ with_is_root 1 (with_node_type 1 pg.old) }
{
    page::set_node_type(pg, page::NODE_LEAF);
    page::set_is_root(pg, 1);
}

// The next page becomes an empty leaf; the new state has it as its root.
pub fn make_root(pool: &mut [u8], st: State) -> State
    requires { (st.used < 65536) × (st.used * 4096 + 4096 ≤ length pool.old) }
    ensures value { result ≡ rooted pool.old st }
    ensures pool_after { pool.new ≡ created_pool pool.old st }
{
    let fresh = page::pool::allocate(pool, st);
    let start = fresh.page as usize * page::PAGE_SIZE;
    write_root(&mut pool[start..start + page::PAGE_SIZE]);
    State {
        root: fresh.page,
        ..fresh.state
    }
}
