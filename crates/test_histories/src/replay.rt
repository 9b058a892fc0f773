// The replay of a list's lines by the writing calls.
use crate::tally::Event;
use crate::{data, told};
use call_answers::Refused;
use mvcc::{Snapshot, Statuses};
use page::PAGE_SIZE;
use page::pool::State;
use test_text::TextError;
use test_text::head::Head;
use test_text::line::Fields;

// The pages of a pool, and its length.
const PAGES: u32 = 520;

pub const POOL: usize = PAGES as usize * PAGE_SIZE;

// The list's active list and its status list.
const ACTIVE: [u64; 1] = [7];

const STATUSES: Statuses = Statuses {
    ids: &[3, 4, 6, 8, 9],
    states: &[3, 2, 1, 3, 2],
};

// Why a line cannot be done: it cannot be read, or the call is refused and should not be.
#[derive(Clone, Copy)]
pub enum Fault {
    Unreadable,
    Refused,
}

impl From<TextError> for Fault {
    fn from(_error: TextError) -> Fault {
        Fault::Unreadable
    }
}

impl From<Refused> for Fault {
    fn from(_refused: Refused) -> Fault {
        Fault::Refused
    }
}

// The pool that the calls make, with its tree's numbers, and the one that the list tells, with its pages in use.
#[derive(Drop)]
pub struct Replay<'a> {
    ours: &'a mut [u8; POOL],
    state: State,
    want: &'a mut [u8; POOL],
    told: u32,
    // The versions that the case has dropped.
    dropped: u64,
}

impl<'a> Replay<'a> {
    // Over pools of zeros.
    pub fn new(ours: &'a mut [u8; POOL], want: &'a mut [u8; POOL]) -> Self {
        Replay {
            ours,
            state: State { root: 0, used: 0 },
            want,
            told: 0,
            dropped: 0,
        }
    }

    // n ROOT
    fn begin(&mut self, fields: Fields) -> Result<Event, Fault> {
        let root: u32 = fields.last_number()?;
        if PAGES <= root {
            return Err(Fault::Unreadable);
        }
        self.ours.fill(0);
        self.want.fill(0);
        let start = root as usize * PAGE_SIZE;
        let pool = &mut *self.ours;
        let leaf = &mut pool[start..start + PAGE_SIZE];
        page::set_node_type(leaf, page::NODE_LEAF);
        page::set_is_root(leaf, 1);
        self.state = State {
            root,
            used: root + 1,
        };
        self.told = 0;
        self.dropped = 0;
        Ok(Event::Created)
    }

    // What a call that changes the tree came to.
    fn changed(&mut self, answer: Result<State, Refused>, done: Event, nothing: Event) -> Event {
        let Ok(state) = answer else {
            return nothing;
        };
        self.state = state;
        done
    }

    // What a call that drops versions came to; 0 is none.
    fn cleared(
        &mut self,
        answer: Result<usize, Refused>,
        done: Event,
        nothing: Event,
    ) -> Result<Event, Fault> {
        let n = answer?;
        self.dropped = self.dropped.saturating_add(n as u64);
        Ok(if n == 0 { nothing } else { done })
    }

    // LEAF KEY CREATOR STAMP POINTER LEN SEED
    fn insert(&mut self, mut fields: Fields) -> Result<Event, Fault> {
        let _leaf = fields.take();
        let head = Head::take(&mut fields)?;
        let len: usize = fields.take_number()?;
        let seed = fields.last_number()?;
        let mut body = [0u8; row::MAX_DATA];
        let body = body.get_mut(..len).ok_or(Fault::Unreadable)?;
        data::fill(body, seed);
        let state = self.state;
        let answer = call_insert::insert_version_at(self.ours, state, &head.with_data(body));
        Ok(self.changed(answer, Event::Inserted, Event::Undividable))
    }

    // LEAF KEY XMAX DELETER: the stamp on what the list's snapshot of that xmax sees
    fn stamp(&mut self, mut fields: Fields) -> Result<Event, Fault> {
        let _leaf = fields.take();
        let key = page::key::flip32(fields.take_number()?);
        let xmax = fields.take_number()?;
        let deleter = fields.last_number()?;
        let state = self.state;
        let snapshot = Snapshot {
            xmax,
            active: &ACTIVE,
            current: None,
        };
        let answer = call_stamp::mark_at(self.ours, state, key, &snapshot, &STATUSES, deleter);
        Ok(self.changed(answer, Event::Stamped, Event::NothingStamped))
    }

    // LEAF KEY
    fn remove(&mut self, mut fields: Fields) -> Result<Event, Fault> {
        let _leaf = fields.take();
        let key = page::key::flip32(fields.last_number()?);
        let state = self.state;
        let answer = call_clean::remove_at(self.ours, state, key);
        self.cleared(answer, Event::Removed, Event::NothingRemoved)
    }

    // LEAF BOUND. A call has a line for each leaf; the first one does it all.
    fn vacuum(&mut self, mut fields: Fields) -> Result<Event, Fault> {
        let _leaf = fields.take();
        let bound = fields.last_number()?;
        let state = self.state;
        let answer = call_clean::vacuum_at(self.ours, state, &STATUSES, bound);
        self.cleared(answer, Event::Vacuumed, Event::NothingVacuumed)
    }

    // PAGE and pieces
    fn tell(&mut self, mut fields: Fields) -> Result<Event, Fault> {
        let page: u32 = fields.take_number()?;
        if PAGES <= page {
            return Err(Fault::Unreadable);
        }
        let mut image = [0u8; PAGE_SIZE];
        told::image(fields, self.want, &mut image)?;
        let start = page as usize * PAGE_SIZE;
        let pool = &mut *self.want;
        pool[start..start + PAGE_SIZE].copy_from_slice(&image);
        self.told = self.told.max(page + 1);
        Ok(Event::Told)
    }

    // Whether the pools are the same up to the last page that either has in use.
    fn pools_agree(&self) -> bool {
        let end = self.state.used.max(self.told) as usize * PAGE_SIZE;
        end <= POOL && self.ours[..end] == self.want[..end]
    }

    // COUNT
    fn end(&mut self, fields: Fields) -> Result<Event, Fault> {
        let dropped: u64 = fields.last_number()?;
        let same = dropped == self.dropped && self.pools_agree();
        self.dropped = 0;
        Ok(if same { Event::Same } else { Event::Differs })
    }

    // Does what the line says, by the letter that it starts with.
    pub fn line(&mut self, line: &[u8]) -> Result<Event, Fault> {
        let mut fields = Fields::new(line);
        let _letter = fields.take();
        match line.first() {
            Some(b'n') => self.begin(fields),
            Some(b'i') => self.insert(fields),
            Some(b's') => self.stamp(fields),
            Some(b'r') => self.remove(fields),
            Some(b'v') => self.vacuum(fields),
            Some(b'p') => self.tell(fields),
            Some(b'=') => self.end(fields),
            _ => Err(Fault::Unreadable),
        }
    }
}
