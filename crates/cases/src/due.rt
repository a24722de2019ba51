// The answer that was found against the one that is due.
use crate::failure::Failure;

// Whether they agree; says so where they do not.
pub(crate) fn as_due(
    rt: &(impl Print + AllocGlobal),
    name: &str,
    due: &str,
    answer: Result<usize, Failure>,
) -> anyhow::Result<bool> {
    let heap = rt.alloc();
    let found = match answer {
        Ok(count) => format!(in heap; "ok {count}")?,
        Err(failure) => format!(in heap; "{failure}")?,
    };
    let agrees = found.as_str() == due;
    if !agrees {
        println!(rt; "{name}: {found}, and {due} is due")?;
    }
    Ok(agrees)
}
