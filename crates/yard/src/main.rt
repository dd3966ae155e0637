// The command for the yard: looks for the codes of a crew's list in a job sheet, and tells hazards first. Everything is read, parsed, built and
// admitted before the first byte is printed, so that a result is never begun and then refused.
#![tactic(auto)]

mod ask;
mod built;
mod files;
mod help;
mod work;

use ask::ask;
use help::print_help;
use std::io;
use telling::lines::NAME;
use telling::trouble::Trouble;
use work::run;

// By `match`: an `or_else` would take a closure that prints, and the check doesn't prove such a one by itself.
fn told(rt: &HostRuntime, done: Result<(), Trouble<'_>>) -> io::Result<()> {
    match done {
        Ok(()) => Ok(()),
        Err(trouble) => trouble.tell(rt),
    }
}

fn main(rt: HostRuntime) -> io::Result<()> {
    let mut room = [0u8; NAME];
    match ask(&rt, &mut room) {
        Ok(None) => told(&rt, print_help(&rt)),
        Ok(Some(request)) => told(&rt, run(&rt, &request)),
        Err(trouble) => trouble.tell(&rt),
    }
}
