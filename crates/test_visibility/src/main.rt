// Draws cases for the rules of `mvcc`, and compares its answers with those recorded of aerodb (standard input; its header
// says what a digit means, and how the list was made): counts, then how many differ.
#![tactic(auto)]

mod answer;
mod case;
mod draw;
mod tally;

use answer::Answer;
use draw::Draw;
use std::io;
use tally::Counts;
use test_text::line::Lines;

// The whole list is read at once. One that fills this is refused, since it may go on.
const ROOM: usize = 262144;

// Each character is the answer of a case, but in a line that starts with #.
fn replay(list: &[u8]) -> Counts {
    let mut draw = Draw::new();
    let mut counts = Counts::new();
    for line in Lines::new(list) {
        if line.starts_with(b"#") {
            continue;
        }
        for digit in line {
            counts.add(case::run(&mut draw), Answer::from_digit(*digit));
        }
    }
    counts
}

fn main(rt: HostRuntime) -> io::Result<()> {
    let mut room = [0u8; ROOM];
    let Some(list) = test_text::read_list(&rt, &mut room)? else {
        return println!(rt; "the list does not fit");
    };
    println!(rt; "{}", replay(list))
}
