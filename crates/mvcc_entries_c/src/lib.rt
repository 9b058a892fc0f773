// The two calls of `mvcc_entries` under their C names, in an archive (document 01, sections 4 and 6): each export calls the
// function of `mvcc_entries` that has its name and says what that one says.
#![tactic(auto)]

ghost use Rattle.std.specs.Prelude.{◌≡◌};
ghost use Rattle.mvcc_entries.specs.Entries.{status_call, Unpacked};

use mvcc_entries::Entry;

// The state of tx, 0 where it is absent; or 4, BadStatuses.
#[unsafe(no_mangle)]
pub extern "C" fn status_in(es: &[Entry], tx: u64) -> u8
    ensures { result ≡ status_call es.now tx }
{
    mvcc_entries::status_in(es, tx)
}

// A good list, as the two number slices that mvcc's functions take: 0; or 4, BadStatuses, or 12, Short, and nothing is
// written.
#[unsafe(no_mangle)]
pub extern "C" fn unpack(es: &[Entry], ids: &mut [u64], states: &mut [u8]) -> u8
    ensures { Unpacked es.now ids.old states.old result ids.new states.new }
{
    mvcc_entries::unpack(es, ids, states)
}
