// Reading a sheet: its text into cells.
ghost use Rattle.std.specs.Prelude.{◌≡◌, length, OnOk};
ghost use Rattle.layout.specs.Cases.{WorkedCases};
ghost use Rattle.layout.specs.Laws.{ReadExactly, OneToOne, AllCounted};
ghost use Rattle.layout.specs.Reading.{read_with, read_text};
ghost use Rattle.sheet.specs.Outcomes.{Read};
ghost use Rattle.sheet.specs.Store.{put, SameCells, Answers};

use crate::due::cells_due;
use crate::reader::Reader;
use crate::store::Store;
use crate::walk::Fields;
use layout::fault::ReadFault;

// One pass through the text, whose values go into the store; `room` is how many cells the caller has.
fn go_through(text: &[u8], room: usize, store: &mut Store) -> Result<(), ReadFault>
    ensures walked { Answers (λ u. store.new) result (read_with put text.now room store.old) }
    ensures lent { OnOk result (SameCells store.old store.new) }
{
    let mut reader = Reader::new(text);
    let head = reader.head(store)?;
    let needed = cells_due(&head);
    if room < needed {
        return Err(ReadFault::TooFewCells {
            needed,
            given: room,
        });
    }
    reader.body(&head, store)?;
    if reader.place.byte < text.len() {
        return Err(ReadFault::Extra(reader.place));
    }
    Ok(())
}

// Reads a sheet's text into the front of `cells` and answers how many cells it has. The first pass only judges, so that a
// text that is refused alters no cell.
pub fn read(text: &[u8], cells: &mut [i32]) -> Result<usize, ReadFault>
    ensures outcome { Read (read_text text.now (length cells.old)) result cells.old cells.new }
    ensures exactly { ReadExactly }
    ensures one_to_one { OneToOne }
    ensures counted { AllCounted }
    ensures worked { WorkedCases }
{
    let room = cells.len();
    go_through(text, room, &mut Store::over(&mut []))?;
    let mut store = Store::over(cells);
    go_through(text, room, &mut store)?;
    Ok(store.next)
}
