// The calls of `port` under their C names, in an archive (document 01, sections 6 and 9): each export calls the function of
// `port` that has its name and says what that one says. Module change has the writing calls.
#![tactic(auto)]

pub mod change;

ghost use Rattle.std.specs.Prelude.{◌≡◌};
ghost use Rattle.page.specs.Key.{rank_of};
ghost use Rattle.call_read.specs.Check.{check_call};
ghost use Rattle.call_read.specs.Conflict.{conflict_call};
ghost use Rattle.call_read.specs.Create.{create_call};
ghost use Rattle.call_read.specs.Find.{find_visible_call, find_call};
ghost use Rattle.call_read.specs.Listings.{versions_of_call, all_versions_call};
ghost use Rattle.call_read.specs.Numbers.{page_numbers_call};
ghost use Rattle.call_read.specs.Scan.{scan_visible_call};
ghost use Rattle.port.specs.Words.{called_pool, given_pool, state_of, current_of, version_words, state_words, flag_words, called, given, called_list, given_list};
ghost use Rattle.mvcc.specs.Snapshot.{snapshot, statuses};

// Create: the next page of the pool becomes the root of a new, empty tree.
// Returns 0 Done, 1 BadPool or 10 NoPages. Writes pool and answer, unless refused.
// Done: answer[0] is the new root, answer[1] the pages in use from now on; that page of the pool is written.
#[unsafe(no_mangle)]
pub extern "C" fn erbulonge_create(
    pool: &mut [u8],
    root: u32,
    used: u32,
    answer: &mut [u64; 8],
) -> u8
    ensures { called_pool result answer.new pool.new ≡ given_pool state_words (create_call pool.old (state_of root used)) answer.old }
{
    port::erbulonge_create(pool, root, used, answer)
}

// Check: whether the tree is well-formed; it never says BadTree.
// Returns 0 Done or 1 BadPool. Writes answer, unless refused.
// Done: answer[0] is 1 for yes, 0 for no.
#[unsafe(no_mangle)]
pub extern "C" fn erbulonge_check(pool: &[u8], root: u32, used: u32, answer: &mut [u64; 8]) -> u8
    ensures { called result answer.new ≡ given flag_words (check_call pool.now (state_of root used)) answer.old }
{
    port::erbulonge_check(pool, root, used, answer)
}

// Lookup: of the key's versions that the snapshot sees the one with the largest creator, on a tie the last.
// Returns 0 Done, 1 BadPool, 3 BadSnapshot, 4 BadStatuses, 2 BadTree or 8 Absent. Writes answer, unless refused.
// Done: answer[0] is the creator; [1] and [2] are 1 and the deleter, or 0 and 0; [3] to [5] are 1, page and slot
// of the version pointer, or three times 0; [6] and [7] are where the data starts, from the pool's first byte,
// and its length.
#[unsafe(no_mangle)]
pub extern "C" fn erbulonge_find_visible(
    pool: &[u8],
    root: u32,
    used: u32,
    key: i32,
    xmax: u64,
    active: &[u64],
    has_current: bool,
    current: u64,
    ids: &[u64],
    states: &[u8],
    answer: &mut [u64; 8],
) -> u8
    ensures { called result answer.new ≡ given version_words (find_visible_call pool.now (state_of root used) (rank_of key) (snapshot xmax active.now (current_of has_current current)) (statuses ids.now states.now)) answer.old }
{
    port::erbulonge_find_visible(
        pool,
        root,
        used,
        key,
        xmax,
        active,
        has_current,
        current,
        ids,
        states,
        answer,
    )
}

// Plain lookup: as erbulonge_find_visible, with xmax 2^64 - 1 and an empty active list.
// Returns 0 Done, 1 BadPool, 4 BadStatuses, 2 BadTree or 8 Absent. Writes answer, unless refused.
// Done: the eight words of a version, as erbulonge_find_visible gives them.
#[unsafe(no_mangle)]
pub extern "C" fn erbulonge_find(
    pool: &[u8],
    root: u32,
    used: u32,
    key: i32,
    has_current: bool,
    current: u64,
    ids: &[u64],
    states: &[u8],
    answer: &mut [u64; 8],
) -> u8
    ensures { called result answer.new ≡ given version_words (find_call pool.now (state_of root used) (rank_of key) (current_of has_current current) (statuses ids.now states.now)) answer.old }
{
    port::erbulonge_find(
        pool,
        root,
        used,
        key,
        has_current,
        current,
        ids,
        states,
        answer,
    )
}

// Conflict: whether some version of the key conflicts with the creator number `seen`. Statuses play no part.
// Returns 0 Done, 1 BadPool, 3 BadSnapshot or 2 BadTree. Writes answer, unless refused.
// Done: answer[0] is 1 for yes, 0 for no.
#[unsafe(no_mangle)]
pub extern "C" fn erbulonge_has_write_conflict(
    pool: &[u8],
    root: u32,
    used: u32,
    key: i32,
    xmax: u64,
    active: &[u64],
    has_current: bool,
    current: u64,
    seen: u64,
    answer: &mut [u64; 8],
) -> u8
    ensures { called result answer.new ≡ given flag_words (conflict_call pool.now (state_of root used) (rank_of key) (snapshot xmax active.now (current_of has_current current)) seen) answer.old }
{
    port::erbulonge_has_write_conflict(
        pool,
        root,
        used,
        key,
        xmax,
        active,
        has_current,
        current,
        seen,
        answer,
    )
}

// The key's versions in chain order: for each a u32 length of what follows, a u16 that is 1, and the leaf cell.
// Returns 0 Done, 1 BadPool, 2 BadTree or 12 Short. Writes out and answer, unless refused.
// Done: answer[0] is how many bytes were written from the start of out; what follows them in out stays.
#[unsafe(no_mangle)]
pub extern "C" fn erbulonge_versions_of(
    pool: &[u8],
    root: u32,
    used: u32,
    key: i32,
    out: &mut [u8],
    answer: &mut [u64; 8],
) -> u8
    ensures { called_list result answer.new out.new ≡ given_list (versions_of_call pool.now (state_of root used) (rank_of key) out.old) answer.old }
{
    port::erbulonge_versions_of(pool, root, used, key, out, answer)
}

// All versions of the tree in chain order, in records as erbulonge_versions_of writes them.
// Returns 0 Done, 1 BadPool, 2 BadTree or 12 Short. Writes out and answer, unless refused.
// Done: answer[0] is how many bytes were written from the start of out; what follows them in out stays.
#[unsafe(no_mangle)]
pub extern "C" fn erbulonge_all_versions(
    pool: &[u8],
    root: u32,
    used: u32,
    out: &mut [u8],
    answer: &mut [u64; 8],
) -> u8
    ensures { called_list result answer.new out.new ≡ given_list (all_versions_call pool.now (state_of root used) out.old) answer.old }
{
    port::erbulonge_all_versions(pool, root, used, out, answer)
}

// What the snapshot sees, rising by key, one version a key: the largest creator, on a tie the first. The records
// are as erbulonge_versions_of writes them.
// Returns 0 Done, 1 BadPool, 3 BadSnapshot, 4 BadStatuses, 2 BadTree or 12 Short. Writes out and answer, unless
// refused.
// Done: answer[0] is how many bytes were written from the start of out; what follows them in out stays.
#[unsafe(no_mangle)]
pub extern "C" fn erbulonge_scan_visible(
    pool: &[u8],
    root: u32,
    used: u32,
    xmax: u64,
    active: &[u64],
    has_current: bool,
    current: u64,
    ids: &[u64],
    states: &[u8],
    out: &mut [u8],
    answer: &mut [u64; 8],
) -> u8
    ensures { called_list result answer.new out.new ≡ given_list (scan_visible_call pool.now (state_of root used) (snapshot xmax active.now (current_of has_current current)) (statuses ids.now states.now) out.old) answer.old }
{
    port::erbulonge_scan_visible(
        pool,
        root,
        used,
        xmax,
        active,
        has_current,
        current,
        ids,
        states,
        out,
        answer,
    )
}

// The tree's page numbers, a page before its children's subtrees, the last child first: for each the u32 6, the
// u16 5 and the number as u32. It keeps a table of 8 KiB on the stack.
// Returns 0 Done, 1 BadPool, 2 BadTree or 12 Short. Writes out and answer, unless refused.
// Done: answer[0] is how many bytes were written from the start of out; what follows them in out stays.
#[unsafe(no_mangle)]
pub extern "C" fn erbulonge_page_numbers(
    pool: &[u8],
    root: u32,
    used: u32,
    out: &mut [u8],
    answer: &mut [u64; 8],
) -> u8
    ensures { called_list result answer.new out.new ≡ given_list (page_numbers_call pool.now (state_of root used) out.old) answer.old }
{
    port::erbulonge_page_numbers(pool, root, used, out, answer)
}
