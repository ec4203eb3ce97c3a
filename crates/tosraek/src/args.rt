// What the program is asked to do.
use itertools::Itertools;
use std::{env, io};

pub const USAGE: &str = "usage:
  tosraek plan FILE    show the plan that a plan file holds
  tosraek label TEXT   show the label that a text gives
  tosraek grade        show three rounds of grading with a unit that tells two stories
  tosraek line LINE N T SPAN P0 P1 ..
                       play a line agreement, halving or graded, of N units, the last T of which lie; the others start
                       from these positions
  tosraek script       run the commands on standard input
  tosraek demo         show an example plan, then run the commands on standard input";

#[derive(Drop)]
pub enum Job {
    Plan(String),
    Label(String),
    Grade,
    Line(String),
    Script,
    Demo,
    Usage,
}

// The job that the words after the program's name ask for.
fn job_of(verb: &str, operand: Option<String>, more: Option<String>) -> Job {
    match (verb, operand, more) {
        ("plan", Some(path), None) => Job::Plan(path),
        ("label", Some(text), None) => Job::Label(text),
        ("grade", None, None) => Job::Grade,
        ("script", None, None) => Job::Script,
        ("demo", None, None) => Job::Demo,
        _ => Job::Usage,
    }
}

pub fn chosen_job(rt: &HostRuntime) -> io::Result<Job> {
    let mut words = env::args(rt)?.skip(1);
    let Some(verb) = words.next() else {
        return Ok(Job::Usage);
    };
    if verb.as_str() == "line" {
        return Ok(Job::Line(words.join(rt.alloc(), " ")?));
    }
    let operand = words.next();
    let more = words.next();
    Ok(job_of(verb.as_str(), operand, more))
}
