// Times reading and opening of the longest sheet, and admission of the largest dossiers. Counts go to standard output, times to
// standard error.
#![tactic(auto)]

mod admission;
mod longest;
mod numbers;
mod timing;

use anyhow::Context;
use layout::fault::OpenFault;
use sheet::opening::open;
use sheet::read::read;
use sources::sheet::run_down;
use sources::source::Source;
use std::rt::Clock;
use timing::Timing;

const CELLS: usize = 32_067;

const READS: u32 = 200;

const OPENINGS: u32 = 2000;

fn set_last_digit(text: &mut [u8], turn: u32) {
    if let [.., digit, _] = text {
        *digit = if turn % 2 == 0 { b'1' } else { b'2' };
    }
}

fn set_last_cell(cells: &mut [i32], turn: u32) {
    if let Some(cell) = cells.last_mut() {
        *cell = (turn & 0xffff) as i32;
    }
}

// Opens the cells and tells the last one.
fn last_opened(cells: &[i32]) -> Result<i32, OpenFault> {
    let mut sheet = run_down();
    open(cells, &mut sheet)?;
    Ok(sheet.cell(sheet.count().wrapping_sub(1)))
}

// The text differs from read to read, so that no read can be left out; so do the cells below.
fn time_reads(
    rt: &(impl Print + Eprint + Clock),
    text: &mut [u8],
    cells: &mut [i32],
) -> anyhow::Result<()> {
    let mut timing = Timing::new();
    let mut sum = 0usize;
    for turn in 0..READS {
        set_last_digit(text, turn);
        let answer = timing.turn(rt, || read(text, cells))?;
        sum = sum.wrapping_add(answer.ok().context("the text is refused")?);
    }
    let rate = timing.rate(text.len());
    println!(rt; "{READS} reads, {sum} cells in all")?;
    eprintln!(rt; "reading: {timing}, {rate} MB/s at best")?;
    Ok(())
}

fn time_openings(rt: &(impl Print + Eprint + Clock), cells: &mut [i32]) -> anyhow::Result<()> {
    let mut timing = Timing::new();
    let mut sum = 0i64;
    for turn in 0..OPENINGS {
        set_last_cell(cells, turn);
        let answer = timing.turn(rt, || last_opened(cells))?;
        sum = sum.wrapping_add(i64::from(answer.ok().context("the cells are refused")?));
    }
    println!(rt; "{OPENINGS} openings, their last cells sum to {sum}")?;
    eprintln!(rt; "opening: {timing}")?;
    Ok(())
}

fn checksum(cells: &[i32]) -> i64 {
    cells.iter().fold(
        0i64,
        |sum, cell| sum.wrapping_mul(31).wrapping_add(i64::from(*cell)),
    )
}

fn main(rt: HostRuntime) -> anyhow::Result<()> {
    let heap = rt.alloc();
    let mut text = longest::longest(heap)?.into_bytes();
    let mut cells: Vec<i32> = vec![in heap; 0; CELLS]?;
    let bytes = text.len();
    println!(rt; "text of {bytes} bytes, {CELLS} cells")?;
    time_reads(&rt, &mut text, &mut cells)?;
    let sum = checksum(&cells);
    println!(rt; "checksum {sum}")?;
    time_openings(&rt, &mut cells)?;
    admission::time_both(&rt)
}
