// A plan as a person reads it.
use label::Label;
use plan::Plan;
use std::io;
use tree::Station;

const COLUMNS: usize = 72;

pub fn show_plan(rt: &HostRuntime, plan: &Plan) -> io::Result<()> {
    let stations = plan.stations();
    let count = stations.len();
    println!(rt; "stations: {count}")?;
    show_legs(rt, stations)?;
    let root = plan.root();
    let height = plan.height();
    println!(rt; "root: {root}\nheight: {height}")?;
    // The walk lies in a buffer of fixed size, so that only the lines of the walk, the last thing shown, need memory.
    let mut walk = [root; 2047];
    let count = plan.walk(&mut walk);
    show_tree(rt, plan, &walk[..count])?;
    show_walk(rt, &walk[..count])
}

// A line for each leg, the station nearer to the root first.
fn show_legs(rt: &HostRuntime, stations: &[Station]) -> io::Result<()> {
    rt.println("legs:")?;
    for station in stations.iter().skip(1) {
        if let Some(parent) = stations.get(usize::from(station.parent)) {
            let upper = parent.label;
            let lower = station.label;
            println!(rt; "  {upper}–{lower}")?;
        }
    }
    Ok(())
}

// A line for each station, behind its parent and deeper by a level. The walk comes to a station for the first time
// where it goes down.
fn show_tree(rt: &HostRuntime, plan: &Plan, walk: &[Label]) -> io::Result<()> {
    rt.println("tree:")?;
    let mut before = 0;
    for label in walk {
        let depth = plan.depth(*label).unwrap_or(0);
        if depth > before {
            let indent = depth.saturating_mul(2);
            println!(rt; "{:indent$}{label}", "")?;
        }
        before = depth;
    }
    Ok(())
}

fn show_walk(rt: &HostRuntime, walk: &[Label]) -> io::Result<()> {
    rt.println("walk:")?;
    let heap = rt.alloc();
    let mut line = String::new(heap);
    for label in walk {
        let word = format!(in heap; " {label}")?;
        if line.len().saturating_add(word.len()) > COLUMNS {
            println!(rt; " {line}")?;
            line.clear();
        }
        line.push_str(word.as_str())?;
    }
    println!(rt; " {line}")
}
