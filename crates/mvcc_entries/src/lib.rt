// A status list as the server lends it: one slice of small structs (document 01, section 4). Only this crate names
// `&[Entry]`; it judges, searches and unpacks such a list, and the rules are mvcc's, on two number slices.
#![tactic(auto)]

ghost use Rattle.std.specs.Prelude.{◌≡◌, true, [], ◌∷◌, ◌≤◌, length};
ghost use Rattle.store.specs.Part.{put};
ghost use Rattle.mvcc.specs.Lists.{rising};
ghost use Rattle.mvcc.specs.Snapshot.{lookup, good_statuses, statuses};
ghost use Rattle.mvcc_entries.specs.Entries.{txs, sts, status_call, unpack_room, Unpacked};

use call_answers::Refusal;

// A transaction and its state, 16 bytes in C's layout.
#[repr(C)]
#[derive(Clone, Copy)]
pub struct Entry {
    pub tx: u64,
    pub state: u8,
}

// What one entry says of tx: mvcc's lookup, on two number slices of one element each.
fn settled(e: Entry, tx: u64) -> u8
    ensures { result ≡ lookup (statuses (e.tx ∷ []) (e.state ∷ [])) tx }
{
    let ids = [e.tx];
    let states = [e.state];
    mvcc::lists::status_of(&ids, &states, tx)
}

// The state of tx in a list that rises: 0 where it is absent.
fn state_of(es: &[Entry], tx: u64) -> u8
    requires { rising (txs es.now) ≡ true }
    ensures { result ≡ lookup (statuses (txs es.now) (sts es.now)) tx }
{
    match es.binary_search_by_key(&tx, |entry| entry.tx) {
        Ok(i) => settled(es[i], tx),
        Err(_) => 0,
    }
}

// A flag and no way out of the loop: one pass judges order and states.
fn entries_are_good(es: &[Entry]) -> bool
    ensures { result ≡ good_statuses (statuses (txs es.now) (sts es.now)) }
{
    if mvcc::lists::MAX_STATUSES < es.len() {
        return false;
    }
    let Some((first, rest)) = es.split_first() else {
        return true;
    };
    let mut ok = mvcc::lists::is_state(first.state);
    let mut last = first.tx;
    for entry in rest {
        ok &= (last < entry.tx) & mvcc::lists::is_state(entry.state);
        last = entry.tx;
    }
    ok
}

// The state of tx, 0 where it is absent; or 4, BadStatuses.
#[unsafe(no_mangle)]
#[tactic(auto, unfolding(crate::specs::Entries::status_call))]
pub extern "C" fn status_in(es: &[Entry], tx: u64) -> u8
    ensures { result ≡ status_call es.now tx }
{
    if entries_are_good(es) {
        return state_of(es, tx);
    }
    u8::from(Refusal::BadStatuses)
}

// The transactions and their states, each written from the start of a number slice.
fn write_entries(es: &[Entry], ids: &mut [u64], states: &mut [u8])
    requires { (length es.now ≤ length ids.old) × (length es.now ≤ length states.old) }
    ensures transactions { ids.new ≡ put 0 (txs es.now) ids.old }
    ensures beside { states.new ≡ put 0 (sts es.now) states.old }
{
    for (i, entry) in es.iter().enumerate() {
        ids[i] = entry.tx;
        states[i] = entry.state;
    }
}

// Whether a list of k entries, good or not, goes into room for n and m numbers; otherwise its refusal.
#[tactic(auto, unfolding(crate::specs::Entries::room_code, crate::specs::Entries::unpack_room))]
fn judge_unpack(good: bool, k: usize, n: usize, m: usize) -> Result<(), Refusal>
    ensures { result ≡ unpack_room good k n m }
{
    if !good {
        return Err(Refusal::BadStatuses);
    }
    if n < k {
        return Err(Refusal::Short);
    }
    if m < k {
        return Err(Refusal::Short);
    }
    Ok(())
}

// A good list, as the two number slices that mvcc's functions take: 0; or 4, BadStatuses, or 12, Short, and nothing is
// written.
#[unsafe(no_mangle)]
#[tactic(auto, using(crate::proofs::Laws::room_fits), unfolding(crate::specs::Entries::unpack_code, crate::specs::Entries::unpacked_to))]
pub extern "C" fn unpack(es: &[Entry], ids: &mut [u64], states: &mut [u8]) -> u8
    ensures { Unpacked es.now ids.old states.old result ids.new states.new }
{
    match judge_unpack(entries_are_good(es), es.len(), ids.len(), states.len()) {
        Err(refusal) => u8::from(refusal),
        Ok(()) => {
            write_entries(es, ids, states);
            0
        }
    }
}
