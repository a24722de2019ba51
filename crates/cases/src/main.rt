// Compares what reading and admission answer with two tables of cases and prints the cases that differ.
#![tactic(auto)]

mod admission_case;
mod call;
mod due;
mod edit;
mod escape;
mod failure;
mod reading_case;
mod text;

use admission_case::admission_agrees;
use reading_case::reading_agrees;
use std::fs;
use std::rt::Files;

#[derive(Clone, Copy, Debug, PartialEq, Eq)]
struct Tally {
    cases: u64,
    differ: u64,
}

impl Tally {
    fn with(self, agrees: bool) -> Tally {
        Tally {
            cases: self.cases.saturating_add(1),
            differ: self.differ.saturating_add(u64::from(!agrees)),
        }
    }
}

// Blank lines, and lines that begin with #, are no cases.
fn is_case(line: &str) -> bool {
    !line.trim().is_empty() && !line.starts_with("#")
}

fn judge<F: Fn(&str) -> anyhow::Result<bool>>(lines: &str, agrees: F) -> anyhow::Result<Tally>
    requires { F.IsAlwaysCallable agrees }
{
    let mut tally = Tally {
        cases: 0,
        differ: 0,
    };
    for line in lines.lines().filter(|line| is_case(line)) {
        tally = tally.with(agrees(line)?);
    }
    Ok(tally)
}

fn compare<F: Fn(&str) -> anyhow::Result<bool>>(
    rt: &(impl Files + Print + AllocGlobal),
    file: &str,
    name: &str,
    agrees: F,
) -> anyhow::Result<()>
    requires { F.IsAlwaysCallable agrees }
{
    let lines = fs::read_to_string(rt, file)?;
    let Tally { cases, differ } = judge(lines.as_str(), agrees)?;
    println!(rt; "{cases} {name}, {differ} differ")?;
    Ok(())
}

fn main(rt: HostRuntime) -> anyhow::Result<()> {
    compare(
        &rt,
        "reading.txt",
        "cases",
        |line| reading_agrees(&rt, line),
    )?;
    compare(
        &rt,
        "admission.txt",
        "admissions",
        |line| admission_agrees(&rt, line),
    )
}
