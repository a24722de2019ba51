// The thirteen cells of a head line, and the head that they tell of.
ghost use Rattle.std.specs.Prelude.{◌≡◌, ◌≤◌};
ghost use Rattle.layout.specs.Forms.{form_number};
ghost use Rattle.layout.specs.Heads.{counts_of};
ghost use Rattle.layout.specs.Layout.{InRanges, counts, count_of};

use crate::form::Form;
use crate::head::Head;

// Cells whose counts are in their ranges, so that a head can be made of them.
#[derive(Clone, Copy)]
pub struct HeadCells {
    pub cells: [i32; 13],
    ghost in_ranges: { InRanges (counts cells) },
}

// The number that a cell stands for where a count is due.
fn count(cell: i32) -> u16
    requires { count_of cell ≤ 255 }
    ensures { result ≡ count_of cell }
{
    cell.max(0) as u16
}

// The form that a number in its range tells. No TryFrom: with the range asked for there is no error to answer.
fn form(cell: i32) -> Form
    requires low { 1 ≤ count_of cell }
    requires high { count_of cell ≤ 2 }
    ensures { form_number result ≡ count_of cell }
{
    if cell == 1 {
        Form::EveryRun
    } else {
        Form::SomeRun
    }
}

impl From<HeadCells> for Head {
    ghost from_gives = { λ head_cells head. counts_of head ≡ counts head_cells.cells };

    fn from(head_cells: HeadCells) -> Head {
        let cells = head_cells.cells;
        Head {
            variables: count(cells[0]),
            places: count(cells[1]),
            steps: count(cells[2]),
            propositions: count(cells[3]),
            states: count(cells[4]),
            edges: count(cells[5]),
            start_rows: count(cells[6]),
            guards: count(cells[7]),
            region_rows: count(cells[8]),
            start_place: count(cells[9]),
            start_state: count(cells[10]),
            form: form(cells[11]),
            rank_numbers: count(cells[12]),
        }
    }
}
