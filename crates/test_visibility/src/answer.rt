// What is answered for a case: whether the version is visible, and whether it is in conflict.

#[derive(Clone, Copy, PartialEq, Eq)]
pub enum Answer {
    Neither,
    Visible,
    Conflict,
    Both,
}

impl Answer {
    // The answer of the two rules.
    pub fn new(visible: bool, conflict: bool) -> Self {
        match (visible, conflict) {
            (false, false) => Answer::Neither,
            (true, false) => Answer::Visible,
            (false, true) => Answer::Conflict,
            (true, true) => Answer::Both,
        }
    }

    // The answer that a digit of the list stands for: 1 for visible, and 2 more for a conflict.
    pub fn from_digit(digit: u8) -> Option<Self> {
        match digit {
            b'0' => Some(Answer::Neither),
            b'1' => Some(Answer::Visible),
            b'2' => Some(Answer::Conflict),
            b'3' => Some(Answer::Both),
            _ => None,
        }
    }
}
