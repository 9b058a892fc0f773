// What is counted, and the lines that say it.
use std::fmt;

// What a line of the list comes to.
#[derive(Clone, Copy)]
pub enum Event {
    Created,
    Inserted,
    // Refused, since no division has room for the version.
    Undividable,
    Stamped,
    NothingStamped,
    Removed,
    NothingRemoved,
    Vacuumed,
    NothingVacuumed,
    // The list records a page.
    Told,
    // The line cannot be read, or the call is refused and should not be.
    Fault,
    // A case is compared, and is the same or differs.
    Same,
    Differs,
}

// The kinds of event that have a line of their own.
const REPORTED: [Event; 11] = [
    Event::Created,
    Event::Inserted,
    Event::Undividable,
    Event::Stamped,
    Event::NothingStamped,
    Event::Removed,
    Event::NothingRemoved,
    Event::Vacuumed,
    Event::NothingVacuumed,
    Event::Told,
    Event::Fault,
];

// What there were so many of.
impl fmt::Display for Event {
    fn fmt<W: fmt::Write>(&self, f: &mut fmt::Formatter<W>) -> fmt::Result {
        let what = match self {
            Event::Created => "histories",
            Event::Inserted => "versions inserted",
            Event::Undividable => "versions that no division has room for",
            Event::Stamped => "versions stamped",
            Event::NothingStamped => "stamps that find nothing",
            Event::Removed => "removals",
            Event::NothingRemoved => "removals that find nothing",
            Event::Vacuumed => "vacuums that drop versions",
            Event::NothingVacuumed => "vacuums that drop none",
            Event::Told => "pages recorded",
            Event::Fault => "faults",
            Event::Same => "cases that are the same",
            Event::Differs => "cases that differ",
        };
        write!(f, "{what}")
    }
}

const KINDS: usize = 13;

// How many events of each kind there were.
#[derive(Clone, Copy)]
pub struct Counts {
    of: [u64; KINDS],
}

impl Counts {
    // No events.
    pub fn new() -> Self {
        Counts { of: [0; KINDS] }
    }

    // Counts an event. A count is at most the length of the list, and so never comes to its type's end.
    pub fn add(&mut self, event: Event) {
        let count = &mut self.of[event as usize];
        *count = count.saturating_add(1);
    }

    fn of(&self, event: Event) -> u64 {
        self.of[event as usize]
    }

    // How many cases were compared.
    pub fn cases(&self) -> u64 {
        self.of(Event::Same).saturating_add(self.of(Event::Differs))
    }
}

// The last line is how many cases there are, and how many differ.
impl fmt::Display for Counts {
    fn fmt<W: fmt::Write>(&self, f: &mut fmt::Formatter<W>) -> fmt::Result {
        for event in REPORTED {
            writeln!(f, "{} {event}", self.of(event))?;
        }
        let cases = self.cases();
        let differ = self.of(Event::Differs);
        write!(f, "{cases} cases, {differ} differ")
    }
}
