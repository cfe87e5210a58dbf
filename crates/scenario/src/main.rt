// Makes the book of the scenario's task and plays the scenario on both: a timeout handler sets the mutex free while the publisher still
// writes, and the reader shows a mixed message.
#![tactic(auto)]

mod actions;
mod story;

use middleware::TABLE;
use std::io;
use story::tell;
use trials::Arrays;

fn main(rt: HostRuntime) -> io::Result<()> {
    tell(&rt, rt.alloc(), &Arrays::of(&TABLE))
}
