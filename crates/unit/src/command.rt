// The commands of the console and how they are written.
use crate::call::{Call, Ranks};
use crate::mistake::Mistake;
use layout::form::Form;
use std::str::SplitWhitespace;

const DEFAULT_CELLS: usize = 60_000;

pub const MOST_CELLS: usize = 1_000_000;

#[derive(Clone, Copy, Debug, PartialEq, Eq)]
pub enum Command<'a> {
    Read { file: &'a str, cells: usize },
    BuiltIn,
    Describe,
    Admit(Call),
}

impl<'a> TryFrom<&'a str> for Command<'a> {
    type Error = Mistake<'a>;

    fn try_from(line: &'a str) -> Result<Command<'a>, Mistake<'a>> {
        let mut words = line.split_whitespace();
        let command = match words.next().unwrap_or("") {
            "read" => parse_read(&mut words)?,
            "builtin" => Command::BuiltIn,
            "describe" => Command::Describe,
            "admit" => Command::Admit(parse_call(&mut words)?),
            name => return Err(Mistake::UnknownCommand(name)),
        };
        match words.next() {
            None => Ok(command),
            Some(word) => Err(Mistake::OneTooMany(word)),
        }
    }
}

fn parse_read<'a>(words: &mut SplitWhitespace<'a>) -> Result<Command<'a>, Mistake<'a>> {
    let file = words.next().ok_or(Mistake::NoFile)?;
    let cells = words.next().map_or(Ok(DEFAULT_CELLS), cell_count)?;
    Ok(Command::Read { file, cells })
}

fn cell_count(word: &str) -> Result<usize, Mistake<'_>> {
    match word.parse::<usize>() {
        Ok(cells) if cells <= MOST_CELLS => Ok(cells),
        _ => Err(Mistake::NoCellCount(word)),
    }
}

fn parse_call<'a>(words: &mut SplitWhitespace<'a>) -> Result<Call, Mistake<'a>> {
    let form = words.next().ok_or(Mistake::NoCall)?;
    let ranks = words.next().ok_or(Mistake::NoCall)?;
    Ok(Call {
        form: form.parse::<Form>().map_err(|_| Mistake::NoForm(form))?,
        ranks: Ranks::try_from(ranks)?,
    })
}
