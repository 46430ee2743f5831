// The running state beside the machine's words, and the first that is ready going on. `m` is the machine's memory.
ghost use Rattle.engine_steps.specs.Asked.{MayPop};
ghost use Rattle.engine_steps.specs.Outcome.{Pops};

use engine_ready::ReadyList;

// Who is ready, how many routines live, how many waits were passed, the slot of the routine that runs.
#[derive(Clone, Copy)]
pub struct Running {
    pub ready: ReadyList,
    pub live: u32,
    pub woken: u32,
    pub me: usize,
}

// Somebody runs; the instant ends; the machine stops under a number.
#[derive(Clone, Copy)]
pub enum Answer {
    Goes,
    Ends,
    Stops(u32),
}

// An answer beside the running state, and no Result that holds it: so tried, a step that wakes took 1.6 times as long (docs/BENCHMARKS.md has the bar).
#[derive(Clone, Copy)]
pub struct Stepped {
    pub answer: Answer,
    pub running: Running,
}

// A step made without the ready list: the routine goes on at this place; the machine stops under a number; it was not made, since it
// may change the ready list.
#[derive(Clone, Copy)]
pub enum Onward {
    To(u32),
    StopsWith(u32),
    Unmade,
}

// The first that is ready goes on: a sleeper after its wait, a new routine where it begins. If nobody is, the instant ends.
pub fn next_ready(m: &mut [u32], running: Running) -> Stepped
    requires { MayPop m.old running }
    ensures { Pops m.old m.new running result }
{
    let q = running.ready;
    let live = running.live;
    let woken = running.woken;
    if engine_ready::is_empty(q) {
        return Stepped {
            answer: Answer::Ends,
            running,
        };
    }
    let popped = engine_ready::pop(q);
    let s = popped.slot;
    let rest = popped.rest;
    let place = engine_row::place(m, s);
    if engine_row::asleep(m, s) {
        engine_row_changes::set_place(m, s, place + 1);
        return Stepped {
            answer: Answer::Goes,
            running: Running {
                ready: rest,
                live,
                woken: woken + 1,
                me: s,
            },
        };
    }
    engine_row_changes::set_place(m, s, place);
    Stepped {
        answer: Answer::Goes,
        running: Running {
            ready: rest,
            live,
            woken,
            me: s,
        },
    }
}
