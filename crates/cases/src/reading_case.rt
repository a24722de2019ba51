// A line of the table of readings: name, count of cells, answer due and text, with bars between them.
use crate::due::as_due;
use crate::failure::Failure;
use crate::text::{fields, text_of};
use anyhow::bail;
use layout::fault::{ReadFault, Refusal};
use sheet::opening::open;
use sheet::read::read;
use sources::sheet::run_down;
use std::rt::Files;

// What every cell holds before a reading; no sheet of the table has it.
const MARKER: i32 = -1_234_567_891;

// The refusal of cells that are no full sheet, written out, so that the number itself is compared.
const NO_SHEET: Refusal = Refusal {
    number: 0x39,
    first: 0,
    second: 0,
};

fn untouched(cells: &[i32]) -> bool {
    cells.iter().all(|cell| *cell == MARKER)
}

fn opened(cells: &[i32]) -> Result<(), Refusal> {
    open(cells, &mut run_down())?;
    Ok(())
}

fn opened_as(cells: &[i32], due: Result<(), Refusal>) -> Result<(), Failure> {
    if opened(cells) == due {
        Ok(())
    } else {
        Err(Failure::Opening(cells.len()))
    }
}

// Opens just the cells that were read, one fewer and one more.
fn after_reading(cells: &[i32], count: usize) -> Result<usize, Failure> {
    if count == 0 || count >= cells.len() || !untouched(&cells[count..]) {
        return Err(Failure::CellAltered);
    }
    opened_as(&cells[..count], Ok(()))?;
    opened_as(&cells[..count - 1], Err(NO_SHEET))?;
    opened_as(&cells[..count + 1], Err(NO_SHEET))?;
    Ok(count)
}

// What a reading comes to, opening what was read included.
fn judged(cells: &[i32], answer: Result<usize, ReadFault>) -> Result<usize, Failure> {
    match answer {
        Ok(count) => after_reading(cells, count),
        Err(_) if !untouched(cells) => Err(Failure::CellAltered),
        Err(fault) => Err(Failure::Refused(Refusal::from(fault))),
    }
}

// Whether the case of a line is answered as due. A cell stands after those that are lent, so that one more can be opened.
pub(crate) fn reading_agrees(
    rt: &(impl Files + Print + AllocGlobal),
    line: &str,
) -> anyhow::Result<bool> {
    let heap = rt.alloc();
    let fields = fields(heap, line, 4)?;
    let &[name, room, due, words] = fields.as_slice() else {
        bail!("a case has four fields");
    };
    let text = text_of(rt, words)?;
    let mut cells: Vec<i32> = vec![in heap; MARKER; room.parse::<usize>()?]?;
    let answer = read(&text, &mut cells);
    cells.push(MARKER)?;
    as_due(rt, name, due, judged(&cells, answer))
}
