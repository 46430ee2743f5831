// Plays a session: `session LISTING TRACE`. Document 01: "A session program reads a listing file and a trace file and prints the writes."
#![tactic(auto)]

use session_files::{Ending, play_files};
use streams::say;

// It has no result and is lent nothing, so there is nothing that it could promise: what it does, the stored output shows.
fn main(rt: HostRuntime) {
    let errors = rt.stderr();
    let ending = play_files(&rt, errors, 1, 2, &mut rt.stdout());
    if let Ending::NotRead = ending {
        say(
            &errors,
            b"usage: session LISTING TRACE\nLISTING and TRACE are files that can be read.\n",
        );
    }
}
