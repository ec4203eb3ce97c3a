// Shows plan files and labels, and runs scripts of commands.
#![tactic(auto)]

mod args;
mod example;
mod exchange;
mod failure;
mod inbox;
mod jobs;
mod line_unit;
mod outcome;
mod play;
mod session;
mod show;
mod writer;

use args::{Job, chosen_job};
use failure::Failure;
use std::io;
use std::process::ExitCode;

fn run(rt: &HostRuntime) -> Result<(), Failure> {
    match chosen_job(rt)? {
        Job::Plan(path) => jobs::plan(rt, path),
        Job::Label(text) => Ok(jobs::label(rt, text.as_str())?),
        Job::Grade => Ok(exchange::show_exchange(rt)?),
        Job::Line(text) => Ok(play::show_play(rt, text.as_str())?),
        Job::Script => Ok(jobs::script(rt)?),
        Job::Demo => jobs::demo(rt),
        Job::Usage => Ok(rt.println(args::USAGE)?),
    }
}

fn main(rt: HostRuntime) -> io::Result<ExitCode> {
    match run(&rt) {
        Ok(()) => Ok(ExitCode::SUCCESS),
        Err(failure) => {
            eprintln!(rt; "tosraek: {failure}")?;
            Ok(ExitCode::FAILURE)
        }
    }
}
