// Replays a list of calls on the register. The list is plain numbers, which tests/replay_stdin makes from the lists of docs/CALLS.md: a
// line of the standard input is a call, and for each the program writes a line with its answer to the standard output. It compares
// nothing: the recorded answers are in the file `stdout`.
//
// A line of a call is decimal numbers parted by one blank:
//
//     CODE N ARGUMENT.. BYTE..
//
// CODE names the call (run.rt), N arguments follow, and what is left are the bytes that the call brings. Arguments come in the order of
// docs/CALLS.md. A deliverer is its kind and its number, a start its code and its number, a proven floor 1 and the floor, or 0 and 0. A
// dump has a register, and 1 and the length of its output, or 0 and 0; a view has the same behind its register or deliverer. An opening has R, P, E and the two place units, five limits, and
// for each register six numbers and its start; settings have the same, with 0 and 0 for a start.
//
// A line of an answer is what an entry point of C gives: 0, or the refusal number, and then the out numbers; of a dump, its length and
// then its bytes, and of a view how many words it has and then those. A line that is no call is answered by `unread`, which no answer is.
#![tactic(auto)]

mod answer;
mod line;
mod run;

use answer::Line;
use run::Register;
use std::io;
use std::io::BufReader;

// Nothing says that the input ends, so the lines are counted, up to a number that no run reaches.
fn main(rt: HostRuntime) -> io::Result<()> {
    let alloc = rt.alloc();
    let mut input = BufReader::new(alloc, rt.reader())?;
    let mut register = Register::new(alloc)?;
    let mut text = Vec::new(alloc);
    let mut bytes = Vec::with_capacity(alloc, run::BYTES)?;
    for _ in 0..u64::MAX {
        if !line::next(&mut input, &mut text)? {
            break;
        }
        let answer = match line::read(&text, &mut bytes) {
            Some(call) => register.run(alloc, &call)?,
            None => Line::unread(alloc)?,
        };
        answer.write(&rt)?;
    }
    Ok(())
}
