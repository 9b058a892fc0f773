// The pool of pages and a tree's state in it: judging the pool (document 01, section 6, BadPool), one page of it,
// and the next page, zeroed and handed out (sections 2 and 5).
ghost use Rattle.std.specs.Prelude.{◌≡◌, ◌+◌, ◌*◌, ◌≤◌, ◌<◌, length};
ghost use Rattle.page.specs.Page.{page};
ghost use Rattle.page.specs.Pool.{good_pool, allocated, with_fresh};

use crate::PAGE_SIZE;

// A pool has at most so many pages.
pub const MAX_PAGES: usize = 65536;

// The numbers of a tree that are not in its pages.
#[derive(Clone, Copy)]
pub struct State {
    pub root: u32,
    pub used: u32,
}

// A page that was handed out, and the state after that.
#[derive(Clone, Copy)]
pub struct Allocated {
    pub page: u32,
    pub state: State,
}

// Whether the pool has 1 to 65,536 whole pages, and all that are in use; otherwise it is a BadPool.
pub fn pool_is_good(pool: &[u8], st: State) -> bool
    ensures { result ≡ good_pool pool.now st }
{
    let n = pool.len() / PAGE_SIZE;
    if pool.len() % PAGE_SIZE != 0 {
        return false;
    }
    if n < 1 {
        return false;
    }
    if MAX_PAGES < n {
        return false;
    }
    st.used as usize <= n
}

// The 4096 bytes of page p.
pub fn page_of(pool: &[u8], p: u32) -> &[u8]
    requires { p * 4096 + 4096 ≤ length pool.now }
    ensures { (result.now ≡ page pool.now p) × (length result.now ≡ 4096) }
{
    let a = p as usize * PAGE_SIZE;
    let e = a + PAGE_SIZE;
    &pool[a..e]
}

// Every page that a call takes is taken here, so that where pages come from is said once.
pub fn allocate(pool: &mut [u8], st: State) -> Allocated
    requires { (st.used < 65536) × (st.used * 4096 + 4096 ≤ length pool.old) }
    ensures value { result ≡ allocated pool.old st }
    ensures pool_after { pool.new ≡ with_fresh pool.old st }
{
    let p = st.used;
    let a = p as usize * PAGE_SIZE;
    store::run::zero_fill(pool, a, a + PAGE_SIZE);
    Allocated {
        page: p,
        state: State {
            root: st.root,
            used: p + 1,
        },
    }
}
