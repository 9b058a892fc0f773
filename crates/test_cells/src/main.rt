// Replays the recorded cell cases (standard input; its header says what a line means) against the reader and the
// writer of `row`: a line for each case, then the listing record of document 01, section 2, then the counts.
#![tactic(auto)]

mod answer;
mod case;
mod record;

use std::io;
use test_text::line::Lines;

// The whole list is read at once. One that fills this is refused, since it may go on.
const ROOM: usize = 1048576;

// A line that starts with # is no case.
fn replay(rt: &impl Print, list: &[u8]) -> io::Result<()> {
    let mut cases: u64 = 0;
    let mut differ: u64 = 0;
    for line in Lines::new(list) {
        if line.starts_with(b"#") {
            continue;
        }
        cases += 1;
        match case::run(line) {
            Ok(same) => println!(rt; "{cases} {same}")?,
            Err(other) => {
                differ += 1;
                println!(rt; "{cases} {other}")?;
            }
        }
    }
    record::print(rt)?;
    println!(rt; "{cases} cases, {differ} differ")
}

fn main(rt: HostRuntime) -> io::Result<()> {
    let mut room = [0u8; ROOM];
    let Some(list) = test_text::read_list(&rt, &mut room)? else {
        return println!(rt; "the list does not fit");
    };
    replay(&rt, list)
}
