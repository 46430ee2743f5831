// The routines of an instant, run to its end, to a stop, or until the allowance is used up. `t` is the table, `m` the
// machine's memory.
#![tactic(auto)]

ghost use Rattle.engine_run_laws.specs.Runs.{MayRunOn, RunsOn};
ghost use Rattle.engine_run.specs.Whole.{MayBeginRun, RunsReady};

use engine_ready::ReadyList;
use engine_ready_step::step;
use engine_run_laws::{Left, Ran};
use engine_steps::{Answer, Running};
use engine_straight::{Straight, run_straight};
use words::Moment;

// The routine that runs goes on, and all that are ready after it. "13 Is a step left?"
pub fn run_on(t: &[u32], m: &mut [u32], present: Moment, running: Running, allowance: u32) -> Ran
    requires { MayRunOn t.now m.old present.0 allowance running }
    ensures { RunsOn t.now m.old m.new present.0 allowance running result }
{
    let mut runs = running;
    let mut left = allowance;
    while left > 0 {
        let me = runs.me;
        match run_straight(t, m, present, me, left) {
            Straight::At(on) => {
                left = on;
            }
            Straight::StopsWith(number) => {
                return Ran::Stopped(number);
            }
        }
        if left == 0 {
            return Ran::Stopped(13);
        }
        left -= 1;
        let stepped = step(t, m, runs);
        let answer = stepped.answer;
        runs = stepped.running;
        match answer {
            Answer::Goes => {}
            Answer::Ends => {
                let live = runs.live;
                let woken = runs.woken;
                return Ran::Ended(Left { left, live, woken });
            }
            Answer::Stops(k) => {
                return Ran::Stopped(k);
            }
        }
    }
    Ran::Stopped(13)
}

// The first that is ready goes on, and all after it. If nobody is, the instant ends.
pub fn run_ready(
    t: &[u32],
    m: &mut [u32],
    present: Moment,
    ready: ReadyList,
    live: u32,
    allowance: u32,
) -> Ran
    requires { MayBeginRun t.now m.old present.0 allowance ready live }
    ensures { RunsReady t.now m.old m.new present.0 allowance ready live result }
{
    let first = Running {
        ready,
        live,
        woken: 0,
        me: 0,
    };
    let stepped = engine_steps::next_ready(m, first);
    let answer = stepped.answer;
    let running = stepped.running;
    match answer {
        Answer::Goes => {
            return run_on(t, m, present, running, allowance);
        }
        Answer::Ends => {
            return Ran::Ended(Left {
                left: allowance,
                live: running.live,
                woken: running.woken,
            });
        }
        Answer::Stops(k) => {
            return Ran::Stopped(k);
        }
    }
}
