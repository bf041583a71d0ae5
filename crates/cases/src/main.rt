// Runs document 01's table of runs through the proved commands, and prints for people what each command answers.
#![tactic(auto)]

mod print;
mod script;

use model::{Answer, Command, Controller, SourceAction, SourceId};
use print::{Count, Outcome, Told, Words};
use script::{SCRIPT, Step, Wanted};
use std::io;

const START: &str =
    "start: 32 sources, 2 cores, every source unmasked with priority equal to its id";

// The table's start state, by the commands that set it up.
fn start() -> Controller {
    let mut s = commands::make(32, 2).state;
    for id in 1..=32 {
        for action in [SourceAction::SetSourcePriority(id), SourceAction::Unmask] {
            s = commands::execute(s, Command::OnSource(SourceId(id), action)).state;
        }
    }
    s
}

// Whether a command answered what the table wants of it.
fn is_wanted(a: &Answer, wanted: &Wanted) -> bool {
    let s = &a.state;
    a.number == wanted.number
        && a.id.0 == wanted.id
        && a.cycles == wanted.cycles
        && records::current_priority(s.cores[0]) == wanted.priorities[0]
        && records::current_priority(s.cores[1]) == wanted.priorities[1]
        && print::owner_of(s, wanted.request) == Some(wanted.owner)
}

fn main(rt: HostRuntime) -> io::Result<()> {
    let mut s = start();
    let mut marked = 0usize;
    let mut good = 0usize;
    for step in &SCRIPT {
        match step {
            Step::Start => {
                println!(rt; "\n{START}")?;
                s = start();
            }
            Step::Make { sources, cores } => {
                let a = commands::make(*sources, *cores);
                let (n, m) = (a.state.n, a.state.m);
                print!(rt;
                    "make {}, {}: {}, ",
                    Count(*sources, "source"),
                    Count(*cores, "core"),
                    Outcome(a.number)
                )?;
                println!(rt; "handed back: {}, {}", Count(n, "source"), Count(m, "core"))?;
            }
            Step::Run(command) => {
                let a = commands::execute(s, *command);
                println!(rt; "     {}: {}", Words(*command), Told(&a))?;
                s = a.state;
            }
            Step::Marked(mark, command, wanted) => {
                let a = commands::execute(s, *command);
                marked += 1;
                let verdict = if is_wanted(&a, wanted) {
                    good += 1;
                    "as the table wants"
                } else {
                    "NOT AS THE TABLE WANTS"
                };
                println!(rt; "T{mark:<4}{}: {}   {verdict}", Words(*command), Told(&a))?;
                s = a.state;
            }
        }
    }
    println!(rt; "\n{good} of {marked} marked rows are as the table wants")
}
