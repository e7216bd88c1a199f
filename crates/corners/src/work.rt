// The workspace: what is put there before a call, and what is found after it. Document 01 has it 0 throughout after DONE, 9 and 10,
// and untouched after every other refusal.
use std::fmt;

// What stands in each number of the workspace before a call.
pub const SOIL: u16 = 43981;

// What a workspace was found to hold.
#[derive(Clone, Copy)]
pub enum State {
    Nothing,
    Zero,
    Kept,
    Mixed,
}

impl fmt::Display for State {
    fn fmt<W: fmt::Write>(&self, f: &mut fmt::Formatter<W>) -> fmt::Result {
        f.write_str(match self {
            State::Nothing => "no work",
            State::Zero => "work zero",
            State::Kept => "work kept",
            State::Mixed => "work mixed",
        })
    }
}

pub fn state_of(work: &[u16]) -> State {
    if work.is_empty() {
        State::Nothing
    } else if work.iter().all(|number| *number == 0) {
        State::Zero
    } else if work.iter().all(|number| *number == SOIL) {
        State::Kept
    } else {
        State::Mixed
    }
}
