//! Runs tables of cases through the public calls of the crates, and prints each case whose answer isn't the wanted one.
//! Each word is the path of a table without its ending `.cases`; its last part names the subject. What files and
//! writers of the system come to is printed behind them.
#![tactic(auto)]

mod edge;
mod subjects;
mod table;

use case_texts::Case;
use std::rt::{Env, Files};
use std::{env, fs};

/// Reports what the table of this name comes to.
fn run(rt: &(impl Files + AllocGlobal), report: &mut Case<'_>, name: &str) -> anyhow::Result<()> {
    let path = format!(in rt.alloc(); "{name}.cases")?;
    let text = fs::read_to_string(rt, path.as_str())?;
    table::run(report, name, text.as_str());
    Ok(())
}

/// Reports what the tables come to that the command line names.
fn run_all(rt: &(impl Env + Files + AllocGlobal), report: &mut Case<'_>) -> anyhow::Result<()> {
    for name in env::args(rt)?.skip(1) {
        run(rt, report, name.as_str())?;
    }
    Ok(())
}

fn main(rt: HostRuntime) -> anyhow::Result<()> {
    let mut report = Case::new(rt.alloc(), "", "");
    run_all(&rt, &mut report)?;
    edge::run(&rt, &mut report)?;
    print!(rt; "{}", report.end()?)?;
    Ok(())
}
