// The jobs of the program.
use crate::failure::Failure;
use crate::session::Session;
use crate::{example, show};
use label::Label;
use plan::Plan;
use script::Sentence;
use std::io::{BufRead, BufReader};
use std::{fs, io};

// Shows the plan in a file, or says why the file is refused.
pub fn plan(rt: &HostRuntime, path: String) -> Result<(), Failure> {
    match fs::read(rt, path.as_str()) {
        Ok(file) => show_file(rt, file.as_slice()),
        Err(error) => Err(Failure::File { path, error }),
    }
}

fn show_file(rt: &HostRuntime, file: &[u8]) -> Result<(), Failure> {
    let mut plan = Plan::new(rt.alloc())?;
    match plan.read(file) {
        Ok(()) => show::show_plan(rt, &plan)?,
        Err(fault) => rt.println(Sentence(fault))?,
    }
    Ok(())
}

// Shows the label that a text gives, or says why it gives none.
pub fn label(rt: &HostRuntime, text: &str) -> io::Result<()> {
    match Label::typed(text.as_bytes()) {
        Ok(label) => rt.println(label),
        Err(fault) => rt.println(Sentence(fault)),
    }
}

// Answers each line of standard input.
pub fn script(rt: &HostRuntime) -> io::Result<()> {
    let heap = rt.alloc();
    let mut session = Session::new(heap);
    for line in BufReader::new(heap, rt.stdin())?.split(heap, b'\n') {
        let bytes = line?;
        answer_bytes(rt, &mut session, bytes.as_slice())?;
    }
    Ok(())
}

fn answer_bytes(rt: &HostRuntime, session: &mut Session, bytes: &[u8]) -> io::Result<()> {
    match std::str::from_utf8(bytes) {
        Ok(line) => answer_line(rt, session, line.strip_suffix('\r').unwrap_or(line)),
        Err(_) => {
            let line = String::from_utf8_lossy(rt.alloc(), bytes)?;
            println!(rt; "{line} => error: the line is not UTF-8 text")
        }
    }
}

fn answer_line(rt: &HostRuntime, session: &mut Session, line: &str) -> io::Result<()> {
    if line.is_empty() || line.starts_with('#') {
        return Ok(());
    }
    let answer = session.answer(line)?;
    println!(rt; "{line} => {answer}")
}

// Shows the example plan, refuses a damaged copy of its file, and answers each line of standard input.
pub fn demo(rt: &HostRuntime) -> Result<(), Failure> {
    let mut file = example::plan_file(rt.alloc())?;
    rt.println("The example plan:")?;
    show_file(rt, file.as_slice())?;
    example::damage(&mut file);
    rt.println("A copy of its file with one byte changed:")?;
    show_file(rt, file.as_slice())?;
    rt.println("The script on standard input:")?;
    Ok(script(rt)?)
}
