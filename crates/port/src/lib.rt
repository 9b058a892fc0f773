// What the booking server calls in-process (document 01, sections 6 and 9): numbers and slices in, the answer's
// number back, what Done gives as words at the start of a lent array, a listing in a lent output. Each call here
// is the one of `call_read` that it names; module change has the writing calls.
// For C: a slice is a pointer and then its length in elements; `answer` points to eight u64, of which a call
// writes those that it names and no other, and none when refused. root and used are the state: what the last
// Done gave. xmax, active and current are the snapshot, where has_current is false if there is no current
// transaction, and current is then not read; ids and states are the status list. Keys are signed.
// A call returns 0 Done, 1 BadPool, 2 BadTree, 3 BadSnapshot, 4 BadStatuses, 5 BadData, 6 Duplicate, 7 Conflict,
// 8 Absent, 9 Undividable, 10 NoPages, 11 TooDeep or 12 Short; of several that hold, the first in the order in
// which the call names them. A refused call writes nothing.
#![tactic(auto)]

pub mod change;

ghost use Rattle.std.specs.Prelude.{◌≡◌, List, ℕ, length};
ghost use Rattle.store.specs.Part.{put};
ghost use Rattle.page.specs.Key.{rank_of};
ghost use Rattle.call_answers.specs.Answer.{outcome_of};
ghost use Rattle.call_read.specs.Check.{check_call};
ghost use Rattle.call_read.specs.Conflict.{conflict_call};
ghost use Rattle.call_read.specs.Create.{create_call};
ghost use Rattle.call_read.specs.Find.{find_visible_call, find_call};
ghost use Rattle.call_read.specs.Listings.{versions_of_call, all_versions_call};
ghost use Rattle.call_read.specs.Numbers.{page_numbers_call};
ghost use Rattle.call_read.specs.Scan.{scan_visible_call};
ghost use Rattle.port.specs.Words.{called_pool, given_pool, state_of, current_of, stamp_words, pointer_words, version_words, state_words, flag_words, count_words, called, given, called_list, given_list};
ghost use Rattle.mvcc.specs.Snapshot.{snapshot, statuses};

use call_answers::Refusal;
use mvcc::{Snapshot, Statuses};
use page::pool::State;
use row::{Pointer, Version};

// What Done gives, as words from the start of the lent array.
pub(crate) trait Words {
    ghost words: { Self → List ℕ };

    fn put(self, answer: &mut [u64])
        requires { length answer.old ≡ 8 }
        ensures { answer.new ≡ put 0 (words self) answer.old };
}

// Creator, stamp, pointer, and where the data starts in the pool and its length.
impl Words for Version {
    ghost words = { version_words };

    fn put(self, answer: &mut [u64]) {
        answer[0] = self.creator;
        put_stamp(answer, self.stamp);
        put_pointer(answer, self.pointer);
        answer[6] = self.start as u64;
        answer[7] = self.len as u64;
    }
}

// 1 for yes, 0 for no.
impl Words for bool {
    ghost words = { flag_words };

    fn put(self, answer: &mut [u64]) {
        answer[0] = u64::from(self);
    }
}

// Root and pages in use.
impl Words for State {
    ghost words = { state_words };

    fn put(self, answer: &mut [u64]) {
        answer[0] = u64::from(self.root);
        answer[1] = u64::from(self.used);
    }
}

// A count of bytes or versions.
impl Words for usize {
    ghost words = { count_words };

    fn put(self, answer: &mut [u64]) {
        answer[0] = self as u64;
    }
}

fn put_stamp(answer: &mut [u64], stamp: Option<u64>)
    requires { length answer.old ≡ 8 }
    ensures { answer.new ≡ put 1 (stamp_words stamp) answer.old }
{
    match stamp {
        None => {
            answer[1] = 0;
            answer[2] = 0;
        }
        Some(tx) => {
            answer[1] = 1;
            answer[2] = tx;
        }
    }
}

fn put_pointer(answer: &mut [u64], pointer: Option<Pointer>)
    requires { length answer.old ≡ 8 }
    ensures { answer.new ≡ put 3 (pointer_words pointer) answer.old }
{
    match pointer {
        None => {
            answer[3] = 0;
            answer[4] = 0;
            answer[5] = 0;
        }
        Some(p) => {
            answer[3] = 1;
            answer[4] = u64::from(p.page);
            answer[5] = u64::from(p.slot);
        }
    }
}

// The answer's number; what Done gives is put into the array, which a refusal leaves as it was.
pub(crate) fn give<T: Words>(answer: &mut [u64], told: Result<T, Refusal>) -> u8
    requires { length answer.old ≡ 8 }
    ensures { called result answer.new ≡ given T.words (outcome_of told) answer.old }
{
    match told {
        Err(refusal) => u8::from(refusal),
        Ok(x) => {
            x.put(answer);
            0
        }
    }
}

// Create: the next page of the pool becomes the root of a new, empty tree.
// Returns 0 Done, 1 BadPool or 10 NoPages. Writes pool and answer, unless refused.
// Done: answer[0] is the new root, answer[1] the pages in use from now on; that page of the pool is written.
#[unsafe(no_mangle)]
pub extern "C" fn erbulonge_create(
    pool: &mut [u8],
    root: u32,
    used: u32,
    answer: &mut [u64; 8],
) -> u8
    ensures { called_pool result answer.new pool.new ≡ given_pool state_words (create_call pool.old (state_of root used)) answer.old }
{
    give(answer, call_read::create(pool, State { root, used }))
}

// Check: whether the tree is well-formed; it never says BadTree.
// Returns 0 Done or 1 BadPool. Writes answer, unless refused.
// Done: answer[0] is 1 for yes, 0 for no.
#[unsafe(no_mangle)]
pub extern "C" fn erbulonge_check(pool: &[u8], root: u32, used: u32, answer: &mut [u64; 8]) -> u8
    ensures { called result answer.new ≡ given flag_words (check_call pool.now (state_of root used)) answer.old }
{
    give(answer, call_read::check(pool, State { root, used }))
}

// Lookup: of the key's versions that the snapshot sees the one with the largest creator, on a tie the last.
// Returns 0 Done, 1 BadPool, 3 BadSnapshot, 4 BadStatuses, 2 BadTree or 8 Absent. Writes answer, unless refused.
// Done: answer[0] is the creator; [1] and [2] are 1 and the deleter, or 0 and 0; [3] to [5] are 1, page and slot
// of the version pointer, or three times 0; [6] and [7] are where the data starts, from the pool's first byte,
// and its length.
#[unsafe(no_mangle)]
pub extern "C" fn erbulonge_find_visible(
    pool: &[u8],
    root: u32,
    used: u32,
    key: i32,
    xmax: u64,
    active: &[u64],
    has_current: bool,
    current: u64,
    ids: &[u64],
    states: &[u8],
    answer: &mut [u64; 8],
) -> u8
    ensures { called result answer.new ≡ given version_words (find_visible_call pool.now (state_of root used) (rank_of key) (snapshot xmax active.now (current_of has_current current)) (statuses ids.now states.now)) answer.old }
{
    let st = State { root, used };
    let statuses = Statuses { ids, states };
    let snapshot = Snapshot {
        xmax,
        active,
        current: has_current.then_some(current),
    };
    give(
        answer,
        call_read::find_visible(pool, st, key, &snapshot, &statuses),
    )
}

// Plain lookup: as erbulonge_find_visible, with xmax 2^64 - 1 and an empty active list.
// Returns 0 Done, 1 BadPool, 4 BadStatuses, 2 BadTree or 8 Absent. Writes answer, unless refused.
// Done: the eight words of a version, as erbulonge_find_visible gives them.
#[unsafe(no_mangle)]
pub extern "C" fn erbulonge_find(
    pool: &[u8],
    root: u32,
    used: u32,
    key: i32,
    has_current: bool,
    current: u64,
    ids: &[u64],
    states: &[u8],
    answer: &mut [u64; 8],
) -> u8
    ensures { called result answer.new ≡ given version_words (find_call pool.now (state_of root used) (rank_of key) (current_of has_current current) (statuses ids.now states.now)) answer.old }
{
    let st = State { root, used };
    let statuses = Statuses { ids, states };
    let current = has_current.then_some(current);
    give(answer, call_read::find(pool, st, key, current, &statuses))
}

// Conflict: whether some version of the key conflicts with the creator number `seen`. Statuses play no part.
// Returns 0 Done, 1 BadPool, 3 BadSnapshot or 2 BadTree. Writes answer, unless refused.
// Done: answer[0] is 1 for yes, 0 for no.
#[unsafe(no_mangle)]
pub extern "C" fn erbulonge_has_write_conflict(
    pool: &[u8],
    root: u32,
    used: u32,
    key: i32,
    xmax: u64,
    active: &[u64],
    has_current: bool,
    current: u64,
    seen: u64,
    answer: &mut [u64; 8],
) -> u8
    ensures { called result answer.new ≡ given flag_words (conflict_call pool.now (state_of root used) (rank_of key) (snapshot xmax active.now (current_of has_current current)) seen) answer.old }
{
    let st = State { root, used };
    let snapshot = Snapshot {
        xmax,
        active,
        current: has_current.then_some(current),
    };
    give(
        answer,
        call_read::has_write_conflict(pool, st, key, &snapshot, seen),
    )
}

// The key's versions in chain order: for each a u32 length of what follows, a u16 that is 1, and the leaf cell.
// Returns 0 Done, 1 BadPool, 2 BadTree or 12 Short. Writes out and answer, unless refused.
// Done: answer[0] is how many bytes were written from the start of out; what follows them in out stays.
#[unsafe(no_mangle)]
pub extern "C" fn erbulonge_versions_of(
    pool: &[u8],
    root: u32,
    used: u32,
    key: i32,
    out: &mut [u8],
    answer: &mut [u64; 8],
) -> u8
    ensures { called_list result answer.new out.new ≡ given_list (versions_of_call pool.now (state_of root used) (rank_of key) out.old) answer.old }
{
    let st = State { root, used };
    give(answer, call_read::versions_of(pool, st, key, out))
}

// All versions of the tree in chain order, in records as erbulonge_versions_of writes them.
// Returns 0 Done, 1 BadPool, 2 BadTree or 12 Short. Writes out and answer, unless refused.
// Done: answer[0] is how many bytes were written from the start of out; what follows them in out stays.
#[unsafe(no_mangle)]
pub extern "C" fn erbulonge_all_versions(
    pool: &[u8],
    root: u32,
    used: u32,
    out: &mut [u8],
    answer: &mut [u64; 8],
) -> u8
    ensures { called_list result answer.new out.new ≡ given_list (all_versions_call pool.now (state_of root used) out.old) answer.old }
{
    let st = State { root, used };
    give(answer, call_read::all_versions(pool, st, out))
}

// What the snapshot sees, rising by key, one version a key: the largest creator, on a tie the first. The records
// are as erbulonge_versions_of writes them.
// Returns 0 Done, 1 BadPool, 3 BadSnapshot, 4 BadStatuses, 2 BadTree or 12 Short. Writes out and answer, unless
// refused.
// Done: answer[0] is how many bytes were written from the start of out; what follows them in out stays.
#[unsafe(no_mangle)]
pub extern "C" fn erbulonge_scan_visible(
    pool: &[u8],
    root: u32,
    used: u32,
    xmax: u64,
    active: &[u64],
    has_current: bool,
    current: u64,
    ids: &[u64],
    states: &[u8],
    out: &mut [u8],
    answer: &mut [u64; 8],
) -> u8
    ensures { called_list result answer.new out.new ≡ given_list (scan_visible_call pool.now (state_of root used) (snapshot xmax active.now (current_of has_current current)) (statuses ids.now states.now) out.old) answer.old }
{
    let st = State { root, used };
    let statuses = Statuses { ids, states };
    let snapshot = Snapshot {
        xmax,
        active,
        current: has_current.then_some(current),
    };
    give(
        answer,
        call_read::scan_visible(pool, st, &snapshot, &statuses, out),
    )
}

// The tree's page numbers, a page before its children's subtrees, the last child first: for each the u32 6, the
// u16 5 and the number as u32. It keeps a table of 8 KiB on the stack.
// Returns 0 Done, 1 BadPool, 2 BadTree or 12 Short. Writes out and answer, unless refused.
// Done: answer[0] is how many bytes were written from the start of out; what follows them in out stays.
#[unsafe(no_mangle)]
pub extern "C" fn erbulonge_page_numbers(
    pool: &[u8],
    root: u32,
    used: u32,
    out: &mut [u8],
    answer: &mut [u64; 8],
) -> u8
    ensures { called_list result answer.new out.new ≡ given_list (page_numbers_call pool.now (state_of root used) out.old) answer.old }
{
    let st = State { root, used };
    give(answer, call_read::page_numbers(pool, st, out))
}
