// The writing calls as the booking server makes them (document 01, sections 6 and 9): the new state, or the versions dropped,
// comes back as words at the start of the lent array. Each call is the one of `call_insert`, `call_stamp` or `call_clean` that it names.
ghost use Rattle.std.specs.Prelude.{◌≡◌, length};
ghost use Rattle.page.specs.Key.{rank_of};
ghost use Rattle.call_insert.specs.Insert.{insert_call, insert_version_call};
ghost use Rattle.call_stamp.specs.Mark.{mark_call, mark_plain_call, delete_call};
ghost use Rattle.call_stamp.specs.Claim.{claim_call};
ghost use Rattle.call_clean.specs.Remove.{remove_call};
ghost use Rattle.call_clean.specs.Vacuum.{vacuum_call};
ghost use Rattle.port.specs.Words.{state_of, current_of, stamp_of, pointer_of, state_words, count_words, called_pool, given_pool};
ghost use Rattle.mvcc.specs.Snapshot.{snapshot, statuses};

use crate::give;
use mvcc::{Snapshot, Statuses};
use page::pool::State;
use row::Pointer;

// Insert: a live version of the key with data `body`; its creator is the current transaction, or 0 without one.
// Returns 0 Done, 1 BadPool, 4 BadStatuses, 5 BadData, 2 BadTree, 6 Duplicate, 9 Undividable, 11 TooDeep or 10
// NoPages.
// Writes pool and answer, unless refused.
// Done: answer[0] is the root and answer[1] the pages in use from now on.
#[unsafe(no_mangle)]
pub extern "C" fn erbulonge_insert(
    pool: &mut [u8],
    root: u32,
    used: u32,
    key: i32,
    has_current: bool,
    current: u64,
    ids: &[u64],
    states: &[u8],
    body: &[u8],
    answer: &mut [u64; 8],
) -> u8
    ensures { called_pool result answer.new pool.new ≡ given_pool state_words (insert_call pool.old (state_of root used) (rank_of key) (current_of has_current current) (statuses ids.now states.now) body.now) answer.old }
{
    let st = State { root, used };
    let statuses = Statuses { ids, states };
    let current = has_current.then_some(current);
    give(
        answer,
        call_insert::insert(pool, st, key, current, &statuses, body),
    )
}

// Insert version: a version of the key as it is given, after equals of its key and creator. Where has_deleter is
// false it is live and `deleter` is not read; where has_pointer is false, `page` and `slot` are not read.
// Returns 0 Done, 1 BadPool, 5 BadData, 2 BadTree, 9 Undividable, 11 TooDeep or 10 NoPages.
// Writes pool and answer, unless refused.
// Done: answer[0] is the root and answer[1] the pages in use from now on.
#[unsafe(no_mangle)]
pub extern "C" fn erbulonge_insert_version(
    pool: &mut [u8],
    root: u32,
    used: u32,
    key: i32,
    creator: u64,
    has_deleter: bool,
    deleter: u64,
    has_pointer: bool,
    page: u32,
    slot: u16,
    body: &[u8],
    answer: &mut [u64; 8],
) -> u8
    ensures { called_pool result answer.new pool.new ≡ given_pool state_words (insert_version_call pool.old (state_of root used) (rank_of key) creator (stamp_of has_deleter deleter) (pointer_of has_pointer page slot) body.now) answer.old }
{
    let st = State { root, used };
    let stamp = has_deleter.then_some(deleter);
    let pointer = has_pointer.then_some(Pointer { page, slot });
    give(
        answer,
        call_insert::insert_version(pool, st, key, creator, stamp, pointer, body),
    )
}

// Stamp: the version that erbulonge_find_visible would give gets the stamp of `deleter`, also over one it has.
// Returns 0 Done, 1 BadPool, 3 BadSnapshot, 4 BadStatuses, 2 BadTree, 8 Absent, 11 TooDeep or 10 NoPages.
// Writes pool and answer, unless refused.
// Done: answer[0] is the root and answer[1] the pages in use from now on.
#[unsafe(no_mangle)]
pub extern "C" fn erbulonge_mark_deleted_visible(
    pool: &mut [u8],
    root: u32,
    used: u32,
    key: i32,
    xmax: u64,
    active: &[u64],
    has_current: bool,
    current: u64,
    ids: &[u64],
    states: &[u8],
    deleter: u64,
    answer: &mut [u64; 8],
) -> u8
    ensures { called_pool result answer.new pool.new ≡ given_pool state_words (mark_call pool.old (state_of root used) (rank_of key) (snapshot xmax active.now (current_of has_current current)) (statuses ids.now states.now) deleter) answer.old }
{
    let st = State { root, used };
    let statuses = Statuses { ids, states };
    let snapshot = Snapshot {
        xmax,
        active,
        current: has_current.then_some(current),
    };
    give(
        answer,
        call_stamp::mark_deleted_visible(pool, st, key, &snapshot, &statuses, deleter),
    )
}

// Plain stamp: as erbulonge_mark_deleted_visible, with xmax 2^64 - 1 and an empty active list.
// Returns 0 Done, 1 BadPool, 4 BadStatuses, 2 BadTree, 8 Absent, 11 TooDeep or 10 NoPages.
// Writes pool and answer, unless refused.
// Done: answer[0] is the root and answer[1] the pages in use from now on.
#[unsafe(no_mangle)]
pub extern "C" fn erbulonge_mark_deleted(
    pool: &mut [u8],
    root: u32,
    used: u32,
    key: i32,
    has_current: bool,
    current: u64,
    ids: &[u64],
    states: &[u8],
    deleter: u64,
    answer: &mut [u64; 8],
) -> u8
    ensures { called_pool result answer.new pool.new ≡ given_pool state_words (mark_plain_call pool.old (state_of root used) (rank_of key) (current_of has_current current) (statuses ids.now states.now) deleter) answer.old }
{
    let st = State { root, used };
    let statuses = Statuses { ids, states };
    let current = has_current.then_some(current);
    give(
        answer,
        call_stamp::mark_deleted(pool, st, key, current, &statuses, deleter),
    )
}

// Plain delete: plain stamp by the current transaction itself, or by 0 if there is none.
// Returns 0 Done, 1 BadPool, 4 BadStatuses, 2 BadTree, 8 Absent, 11 TooDeep or 10 NoPages.
// Writes pool and answer, unless refused.
// Done: answer[0] is the root and answer[1] the pages in use from now on.
#[unsafe(no_mangle)]
pub extern "C" fn erbulonge_delete(
    pool: &mut [u8],
    root: u32,
    used: u32,
    key: i32,
    has_current: bool,
    current: u64,
    ids: &[u64],
    states: &[u8],
    answer: &mut [u64; 8],
) -> u8
    ensures { called_pool result answer.new pool.new ≡ given_pool state_words (delete_call pool.old (state_of root used) (rank_of key) (current_of has_current current) (statuses ids.now states.now)) answer.old }
{
    let st = State { root, used };
    let statuses = Statuses { ids, states };
    let current = has_current.then_some(current);
    give(
        answer,
        call_stamp::delete(pool, st, key, current, &statuses),
    )
}

// Claim: lookup, conflict test against the creator found, and the stamp of the current transaction, as one call.
// Returns 0 Done, 1 BadPool, 3 BadSnapshot (also with no current transaction, or 0), 4 BadStatuses, 2 BadTree, 8
// Absent, 7 Conflict, 11 TooDeep or 10 NoPages.
// Writes pool and answer, unless refused.
// Done: answer[0] is the root and answer[1] the pages in use from now on.
#[unsafe(no_mangle)]
pub extern "C" fn erbulonge_claim(
    pool: &mut [u8],
    root: u32,
    used: u32,
    key: i32,
    xmax: u64,
    active: &[u64],
    has_current: bool,
    current: u64,
    ids: &[u64],
    states: &[u8],
    answer: &mut [u64; 8],
) -> u8
    ensures { called_pool result answer.new pool.new ≡ given_pool state_words (claim_call pool.old (state_of root used) (rank_of key) (snapshot xmax active.now (current_of has_current current)) (statuses ids.now states.now)) answer.old }
{
    let st = State { root, used };
    let statuses = Statuses { ids, states };
    let snapshot = Snapshot {
        xmax,
        active,
        current: has_current.then_some(current),
    };
    give(
        answer,
        call_stamp::claim(pool, st, key, &snapshot, &statuses),
    )
}

// Remove: drops every version of the key that search meets; a key without versions is Done too.
// Returns 0 Done, 1 BadPool or 2 BadTree. Writes pool and answer, unless refused.
// Done: answer[0] is how many versions were dropped. Root and pages in use stay.
#[unsafe(no_mangle)]
pub extern "C" fn erbulonge_remove_all_versions(
    pool: &mut [u8],
    root: u32,
    used: u32,
    key: i32,
    answer: &mut [u64; 8],
) -> u8
    ensures { called_pool result answer.new pool.new ≡ given_pool count_words (remove_call pool.old (state_of root used) (rank_of key)) answer.old }
{
    let st = State { root, used };
    give(answer, call_clean::remove_all_versions(pool, st, key))
}

// Vacuum: drops the versions whose creator is aborted, or whose deleter is committed and below `bound`, and
// clears the stamps of aborted deleters.
// Returns 0 Done, 1 BadPool, 4 BadStatuses or 2 BadTree. Writes pool and answer, unless refused.
// Done: answer[0] is how many versions were dropped. Root and pages in use stay.
#[unsafe(no_mangle)]
pub extern "C" fn erbulonge_vacuum_deleted_versions(
    pool: &mut [u8],
    root: u32,
    used: u32,
    ids: &[u64],
    states: &[u8],
    bound: u64,
    answer: &mut [u64; 8],
) -> u8
    ensures { called_pool result answer.new pool.new ≡ given_pool count_words (vacuum_call pool.old (state_of root used) (statuses ids.now states.now) bound) answer.old }
{
    let st = State { root, used };
    let statuses = Statuses { ids, states };
    give(
        answer,
        call_clean::vacuum_deleted_versions(pool, st, &statuses, bound),
    )
}
