// What a session knows between two calls.
ghost use Rattle.std.specs.Prelude.{suc};
ghost use Rattle.call_conclude.specs.Answers.{due_of};
ghost use Rattle.session_calls.specs.Clock.{Soon};

use call_engine::Due;

// What the last call's result gave: the present moment, and the next moment due. The session's moments are the trace's numbers.
#[derive(Clone, Copy)]
pub struct Clock {
    pub now: u64,
    pub due: Due,
}

// The next moment due if it is before a time.
pub fn due_before(due: Due, time: u64) -> Due
    ensures { Soon (due_of due) time result }
{
    match due {
        Due::Never => Due::Never,
        Due::At(m) => {
            if m < time {
                return Due::At(m);
            }
            Due::Never
        }
    }
}

// The next moment due if it is not after a time.
pub fn due_until(due: Due, time: u64) -> Due
    ensures { Soon (due_of due) (suc time) result }
{
    match due {
        Due::Never => Due::Never,
        Due::At(m) => {
            if m <= time {
                return Due::At(m);
            }
            Due::Never
        }
    }
}
