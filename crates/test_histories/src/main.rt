// Replays the recorded calls (standard input; its header says what a line means) by the writing calls. The program's own
// pool is made by these calls alone, the other one is put together from the list, and after each case every byte of the
// pages in use is compared.
#![tactic(auto)]

mod data;
mod replay;
mod tally;
mod told;

use replay::{POOL, Replay};
use std::io;
use tally::{Counts, Event};
use test_text::line::Lines;

// The whole list is read at once. One that fills this is refused, since it may go on.
const ROOM: usize = 1048576;

// A line that starts with # says nothing.
fn replay_all(rt: &impl Print, list: &[u8], mut replay: Replay) -> io::Result<Counts> {
    let mut counts = Counts::new();
    for line in Lines::new(list) {
        if line.starts_with(b"#") {
            continue;
        }
        let event = replay.line(line).unwrap_or(Event::Fault);
        counts.add(event);
        if let Event::Differs = event {
            println!(rt; "case {} differs", counts.cases())?;
        }
    }
    Ok(counts)
}

fn main(rt: HostRuntime) -> io::Result<()> {
    let mut room = [0u8; ROOM];
    let Some(list) = test_text::read_list(&rt, &mut room)? else {
        return println!(rt; "the list does not fit");
    };
    let mut ours = [0u8; POOL];
    let mut want = [0u8; POOL];
    let counts = replay_all(&rt, list, Replay::new(&mut ours, &mut want))?;
    println!(rt; "{counts}")
}
