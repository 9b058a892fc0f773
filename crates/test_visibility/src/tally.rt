// What is counted, and the lines that say it.
ghost use Rattle.std.specs.Prelude.{◌≡◌, ◌+◌, ◌<◌, ◌≤◌};

use crate::answer::Answer;
use crate::case::Outcome;
use std::fmt;

// How many answers the list is to have.
const EXPECTED: u64 = 120000;

// How many cases there are, and how many of them are of a kind.
#[derive(Clone, Copy)]
pub struct Counts {
    pub cases: u64,
    // The answer is not the recorded one.
    differ: u64,
    // By their answer.
    neither: u64,
    visible: u64,
    conflict: u64,
    both: u64,
    // The creator is aborted; it is not in the status list; it is the current transaction; it is the seen one.
    aborted: u64,
    unlisted: u64,
    own: u64,
    seen: u64,
    // The deleter is the current transaction.
    own_stamp: u64,
    // The lists of the case were not judged good.
    refused: u64,
    // Claim's test says something else than the ported one.
    other_claim: u64,
    // The character of the list is no answer.
    no_answer: u64,
    ghost within: { (differ ≤ cases) × (neither ≤ cases) × (visible ≤ cases) × (conflict ≤ cases) × (both ≤ cases) × (aborted ≤ cases) × (unlisted ≤ cases) × (own ≤ cases) × (seen ≤ cases) × (own_stamp ≤ cases) × (refused ≤ cases) × (other_claim ≤ cases) × (no_answer ≤ cases) },
}

impl Counts {
    // No cases.
    pub fn new() -> Self
        ensures { result.cases ≡ 0 }
    {
        Counts {
            cases: 0,
            differ: 0,
            neither: 0,
            visible: 0,
            conflict: 0,
            both: 0,
            aborted: 0,
            unlisted: 0,
            own: 0,
            seen: 0,
            own_stamp: 0,
            refused: 0,
            other_claim: 0,
            no_answer: 0,
        }
    }

    // Counts a case by what it comes to, which is None where its lists were refused, and by the recorded answer.
    pub fn add(&mut self, found: Option<Outcome>, recorded: Option<Answer>)
        requires { self.old.cases < u64.MAX }
        ensures { self.new.cases ≡ self.old.cases + 1 }
    {
        self.cases += 1;
        let answer = found.map(|outcome| outcome.answer);
        self.no_answer += u64::from(recorded.is_none());
        self.differ += u64::from(recorded.is_none() || answer != recorded);
        let Some(outcome) = found else {
            self.refused += 1;
            return;
        };
        match outcome.answer {
            Answer::Neither => self.neither += 1,
            Answer::Visible => self.visible += 1,
            Answer::Conflict => self.conflict += 1,
            Answer::Both => self.both += 1,
        }
        self.aborted += u64::from(outcome.aborted);
        self.unlisted += u64::from(outcome.unlisted);
        self.own += u64::from(outcome.own);
        self.seen += u64::from(outcome.seen);
        self.own_stamp += u64::from(outcome.own_stamp);
        self.other_claim += u64::from(outcome.other_claim);
    }
}

// The last line is how many cases there are, and how many differ.
impl fmt::Display for Counts {
    fn fmt<W: fmt::Write>(&self, f: &mut fmt::Formatter<W>) -> fmt::Result {
        writeln!(f, "{} neither visible nor in conflict", self.neither)?;
        writeln!(f, "{} visible", self.visible)?;
        writeln!(f, "{} in conflict", self.conflict)?;
        writeln!(f, "{} visible and in conflict", self.both)?;
        writeln!(f, "{} creator aborted", self.aborted)?;
        writeln!(f, "{} creator unlisted", self.unlisted)?;
        writeln!(f, "{} creator current", self.own)?;
        writeln!(f, "{} deleter current", self.own_stamp)?;
        writeln!(f, "{} creator seen", self.seen)?;
        writeln!(f, "{} lists refused", self.refused)?;
        let claims = self.other_claim;
        writeln!(f, "{claims} claim tests that differ from the conflict test")?;
        writeln!(f, "{} characters that are no answer", self.no_answer)?;
        if self.cases < EXPECTED {
            writeln!(f, "{} answers too few", EXPECTED - self.cases)?;
        }
        if EXPECTED < self.cases {
            writeln!(f, "{} answers too many", self.cases - EXPECTED)?;
        }
        write!(f, "{} cases, {} differ", self.cases, self.differ)
    }
}
