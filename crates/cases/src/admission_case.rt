// A line of the table of admissions: name, form and count of rank numbers called for, answer due and text.
use crate::call::{Call, Ranks};
use crate::due::as_due;
use crate::failure::Failure;
use crate::text::{fields, text_of};
use anyhow::{Context, bail};
use certificate::admit;
use certificate::admitted::{Admitted, EveryRun, Refused, SomeRun};
use certificate::kind::{ByFirstDifference, RankKind};
use layout::fault::Refusal;
use layout::form::Form;
use sheet::opening::open;
use sheet::read::read;
use sources::built_in::BuiltIn;
use sources::sheet::run_down;
use sources::source::Source;
use std::alloc::Global;
use std::rt::Files;

const CELLS: usize = 32_067;

// What tells a dossier from another one of the table: its count of cells and the last of them.
#[derive(Clone, Copy, Debug, PartialEq, Eq)]
struct Mark {
    count: usize,
    last: i32,
}

impl Mark {
    fn of<S: Source>(source: &S) -> Mark {
        let count = source.count();
        Mark {
            count,
            last: source.cell(count.wrapping_sub(1)),
        }
    }
}

// The answer of an admission, for a dossier that had this mark when it was handed over.
fn judged<S: Source + Drop, K: Drop, F: Drop>(
    answer: Result<(usize, Admitted<S, K, F>), Refused<S, K>>,
    mark: Mark,
) -> Result<usize, Failure> {
    match answer {
        Ok((lines, _)) => Ok(lines),
        Err(refused) => {
            let Refused { fault, source, .. } = refused;
            if Mark::of(&source) == mark {
                Err(Failure::Refused(Refusal::from(fault)))
            } else {
                Err(Failure::DossierAltered)
            }
        }
    }
}

// The form is a value here, and a type of the answer.
fn admit<S: Source + Drop, K: RankKind + Drop>(
    source: S,
    form: Form,
    kind: K,
) -> Result<usize, Failure> {
    let mark = Mark::of(&source);
    match form {
        Form::EveryRun => judged(admit::admit(source, kind, EveryRun), mark),
        Form::SomeRun => judged(admit::admit(source, kind, SomeRun), mark),
    }
}

// The kind is a value here, and a type of the call.
fn judge<S: Source + Drop>(source: S, call: Call) -> Result<usize, Failure> {
    match call.ranks {
        Ranks::OneNumber => admit(source, call.form, ByFirstDifference::<1>),
        Ranks::TwoNumbers => admit(source, call.form, ByFirstDifference::<2>),
    }
}

// Reads a text, opens a sheet over its cells and has it judged. As in the program that times it: the two share no crate but the libraries, which
// allocate no cells.
fn judge_text(heap: Global, text: &[u8], call: Call) -> anyhow::Result<Result<usize, Failure>> {
    let mut cells: Vec<i32> = vec![in heap; 0; CELLS]?;
    let count = read(text, &mut cells).ok().context("the text is no sheet")?;
    cells.truncate(count);
    let mut sheet = run_down();
    open(&cells, &mut sheet)
        .ok()
        .context("the sheet cannot be opened")?;
    Ok(judge(sheet, call))
}

// Whether the case of a line is answered as due.
pub(crate) fn admission_agrees(
    rt: &(impl Files + Print + AllocGlobal),
    line: &str,
) -> anyhow::Result<bool> {
    let heap = rt.alloc();
    let fields = fields(heap, line, 5)?;
    let &[name, form, ranks, due, words] = fields.as_slice() else {
        bail!("a case has five fields");
    };
    // a word that names no form calls for a some-run, and one that is no count of rank numbers for two
    let call = Call {
        form: form.parse::<Form>().unwrap_or(Form::SomeRun),
        ranks: ranks.parse::<Ranks>().unwrap_or(Ranks::TwoNumbers),
    };
    let answer = match words {
        "built-in" => judge(BuiltIn, call),
        words => judge_text(heap, &text_of(rt, words)?, call)?,
    };
    as_due(rt, name, due, answer)
}
