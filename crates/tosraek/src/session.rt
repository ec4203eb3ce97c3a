// The plans and lines that a script has made, and the answer to each of its lines.
use crate::inbox::read_inbox;
use crate::line_unit::LineUnit;
use crate::outcome::NoAnswer;
use grading::grade_sender;
use itertools::Itertools;
use label::Label;
use plan::Plan;
use script::{Command, Hex, LineWords, ValueKind, parse, read_hex};
use slot::{Kind, Position};
use std::alloc::{AllocError, Global};
use std::collections::BTreeMap;
use std::fmt;
use wire::{Crew, Inbox};

#[derive(Drop)]
pub struct Session {
    heap: Global,
    plans: BTreeMap<String, Plan>,
    lines: BTreeMap<String, LineUnit>,
}

// The grades of all senders by the round-3 frames, parted by blanks.
fn grades_text<K: Kind + fmt::Display>(
    heap: Global,
    crew: Crew,
    inbox: &Inbox,
) -> Result<String, AllocError> {
    (0..crew.units())
        .map(|sender| grade_sender::<K>(crew, inbox, sender))
        .join(heap, " ")
}

fn typed(text: &str) -> Result<Label, NoAnswer> {
    Ok(Label::typed(text.as_bytes())?)
}

impl Session {
    pub fn new(heap: Global) -> Session {
        Session {
            heap,
            plans: BTreeMap::new(heap),
            lines: BTreeMap::new(heap),
        }
    }

    // The answer to a line.
    pub fn answer(&mut self, line: &str) -> Result<String, AllocError> {
        match self.answer_line(line) {
            Ok(answer) => Ok(answer),
            Err(NoAnswer::Memory(error)) => Err(error),
            Err(other) => other.to_string(self.heap),
        }
    }

    fn answer_line(&mut self, line: &str) -> Result<String, NoAnswer> {
        self.run(parse(line)?)
    }

    fn run(&mut self, command: Command<'_>) -> Result<String, NoAnswer> {
        match command {
            Command::Label { text } => self.label(text),
            Command::NewPlan { plan } => self.new_plan(plan),
            Command::Read { plan, file } => self.read(plan, file),
            Command::Walk { plan } => self.walk(plan),
            Command::Depth { plan, label } => self.depth(plan, label),
            Command::Way { plan, from, to } => self.way(plan, from, to),
            Command::Meet { plan, one, other } => self.meet(plan, one, other),
            Command::Grade {
                kind,
                units,
                faulty,
                frames,
            } => self.grade(kind, units, faulty, frames),
            Command::NewLine { name, words } => self.new_line(name, words),
            Command::LineFrame { name } => self.line_frame(name),
            Command::LineStep { name, frames } => self.line_step(name, frames),
            Command::LineResult { name } => self.line_result(name),
        }
    }

    fn plan(&self, name: &str) -> Result<&Plan, NoAnswer> {
        self.plans.get(name).ok_or(NoAnswer::UnknownPlan)
    }

    fn label(&self, text: &str) -> Result<String, NoAnswer> {
        let bytes = read_hex(self.heap, text.as_bytes())?;
        let label = Label::typed(bytes.as_slice())?;
        Ok(label.to_string(self.heap)?)
    }

    fn new_plan(&mut self, name: &str) -> Result<String, NoAnswer> {
        let heap = self.heap;
        let key = String::from_str(heap, name)?;
        let made = Plan::new(heap)?;
        self.plans.insert(key, made)?;
        Ok(String::from_str(heap, "ok")?)
    }

    fn read(&mut self, name: &str, file: &str) -> Result<String, NoAnswer> {
        let heap = self.heap;
        let plan = self.plans.get_mut(name).ok_or(NoAnswer::UnknownPlan)?;
        let bytes = read_hex(heap, file.as_bytes())?;
        plan.read(bytes.as_slice())?;
        let count = plan.stations().len();
        let root = plan.root();
        let height = plan.height();
        Ok(format!(in heap; "ok {count} {root} {height}")?)
    }

    fn walk(&self, name: &str) -> Result<String, NoAnswer> {
        let plan = self.plan(name)?;
        // `Plan::walk` writes into a buffer of the caller's and gives the count, since a plan's calls take no memory.
        let mut walk = [plan.root(); 2047];
        let count = plan.walk(&mut walk);
        Ok(walk.iter().take(count).join(self.heap, " ")?)
    }

    fn depth(&self, name: &str, text: &str) -> Result<String, NoAnswer> {
        let plan = self.plan(name)?;
        let depth = plan.depth(typed(text)?).ok_or(NoAnswer::NoStation)?;
        Ok(depth.to_string(self.heap)?)
    }

    fn way(&self, name: &str, from: &str, to: &str) -> Result<String, NoAnswer> {
        let plan = self.plan(name)?;
        let mut way = [plan.root(); 1024];
        let count = plan
            .way(typed(from)?, typed(to)?, &mut way)
            .ok_or(NoAnswer::NoStation)?;
        Ok(way.iter().take(count).join(self.heap, " ")?)
    }

    fn meet(&self, name: &str, one: &str, other: &str) -> Result<String, NoAnswer> {
        let plan = self.plan(name)?;
        let meeting = plan
            .deepest_above(typed(one)?, typed(other)?)
            .ok_or(NoAnswer::NoStation)?;
        Ok(meeting.to_string(self.heap)?)
    }

    fn grade(
        &self,
        kind: ValueKind,
        units: usize,
        faulty: usize,
        frames: &str,
    ) -> Result<String, NoAnswer> {
        let crew = Crew::new(units, faulty, 0)?;
        let inbox = read_inbox(self.heap, units, frames)?;
        match kind {
            ValueKind::Position => Ok(grades_text::<Position>(self.heap, crew, &inbox)?),
            ValueKind::Label => Ok(grades_text::<Label>(self.heap, crew, &inbox)?),
        }
    }

    fn line(&self, name: &str) -> Result<&LineUnit, NoAnswer> {
        self.lines.get(name).ok_or(NoAnswer::UnknownUnit)
    }

    fn new_line(&mut self, name: &str, words: LineWords) -> Result<String, NoAnswer> {
        let unit = LineUnit::start(words)?;
        let key = String::from_str(self.heap, name)?;
        self.lines.insert(key, unit)?;
        Ok(unit.rounds().to_string(self.heap)?)
    }

    fn line_frame(&self, name: &str) -> Result<String, NoAnswer> {
        let frame = self.line(name)?.frame();
        Ok(Hex(frame.bytes()).to_string(self.heap)?)
    }

    fn line_step(&mut self, name: &str, frames: &str) -> Result<String, NoAnswer> {
        let heap = self.heap;
        let unit = self.lines.get_mut(name).ok_or(NoAnswer::UnknownUnit)?;
        let inbox = read_inbox(heap, unit.units(), frames)?;
        unit.step(&inbox);
        Ok(String::from_str(heap, "ok")?)
    }

    fn line_result(&self, name: &str) -> Result<String, NoAnswer> {
        let result = self.line(name)?.result();
        Ok(result.to_string(self.heap)?)
    }
}
