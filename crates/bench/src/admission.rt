// Times the admission of the largest dossiers of both forms: every count at its highest, dense rows and multipliers.
use crate::CELLS;
use crate::timing::Timing;
use anyhow::Context;
use certificate::admit::admit;
use certificate::admitted::{Admitted, EveryRun, Refused, SomeRun};
use certificate::kind::{ByFirstDifference, TwoNumbers};
use layout::form::Form;
use sheet::opening::open;
use sheet::read::read;
use sources::sheet::run_down;
use sources::source::Source;
use std::fs;
use std::rt::{Clock, Files};

const ADMISSIONS: u32 = 500;

// Said of a text that is no sheet too.
const NOT_OPENED: &str = "the sheet cannot be opened";

fn handed_back<S, F: Drop>(admission: (usize, Admitted<S, TwoNumbers, F>)) -> (S, usize) {
    let (lines, admitted) = admission;
    let (source, _) = admitted.release();
    (source, lines)
}

// Admits a dossier and hands it back with the number of proof lines. The form is a value here, and a type of what is admitted.
fn admitted<S: Source>(source: S, form: Form) -> Result<(S, usize), Refused<S, TwoNumbers>> {
    match form {
        Form::EveryRun => admit(source, ByFirstDifference::<2>, EveryRun).map(handed_back),
        Form::SomeRun => admit(source, ByFirstDifference::<2>, SomeRun).map(handed_back),
    }
}

fn time_admissions<S: Source + Drop>(
    rt: &(impl Print + Eprint + Clock),
    mut dossier: S,
    form: Form,
) -> anyhow::Result<()> {
    let mut timing = Timing::new();
    let mut sum = 0usize;
    for _ in 0..ADMISSIONS {
        // a dossier that is refused comes back too, with no proof line to count
        let (back, lines) = match timing.turn(rt, || admitted(dossier, form))? {
            Ok((back, lines)) => (back, lines),
            Err(refused) => (refused.source, 0),
        };
        dossier = back;
        sum = sum.wrapping_add(lines);
    }
    println!(rt; "{ADMISSIONS} admissions, {form}, {sum} proof lines in all")?;
    let line = timing.fastest_part(sum / ADMISSIONS as usize);
    eprintln!(rt; "admission, {form}: {timing}, {line} ns a line at best")?;
    Ok(())
}

// Reading and opening stand in the program of cases too: the two share no crate but the libraries, which read no file
// and allocate no cells.
fn time_sheet(
    rt: &(impl Files + Print + Eprint + Clock + AllocGlobal),
    form: Form,
) -> anyhow::Result<()> {
    let text = fs::read(rt, format!(in rt.alloc(); "{form}.sheet")?)?;
    let mut cells: Vec<i32> = vec![in rt.alloc(); 0; CELLS]?;
    let count = read(&text, &mut cells).ok().context(NOT_OPENED)?;
    cells.truncate(count);
    let mut sheet = run_down();
    open(&cells, &mut sheet).ok().context(NOT_OPENED)?;
    time_admissions(rt, sheet, form)
}

pub(crate) fn time_both(
    rt: &(impl Files + Print + Eprint + Clock + AllocGlobal),
) -> anyhow::Result<()> {
    time_sheet(rt, Form::EveryRun)?;
    time_sheet(rt, Form::SomeRun)
}
