// Opening a list of cells as a sheet.
ghost use Rattle.std.specs.Prelude.{◌≡◌};
ghost use Rattle.layout.specs.Cells.{well_formed};
ghost use Rattle.sheet.specs.Outcomes.{verdict, Opened};

use crate::checker::Checker;
use crate::store::Store;
use crate::walk::Fields;
use layout::fault::{OpenFault, Place};
use sources::sheet::Sheet;

// Goes through a list of cells as through a sheet.
fn check(list: &[i32]) -> Result<(), OpenFault>
    ensures { result ≡ verdict (well_formed list.now) }
{
    let mut checker = Checker {
        list,
        place: Place { line: 1, byte: 0 },
    };
    // the values are kept nowhere
    let mut nowhere = Store::over(&mut []);
    let head = checker.head(&mut nowhere)?;
    checker.body(&head, &mut nowhere)?;
    if checker.place.byte == list.len() {
        Ok(())
    } else {
        Err(OpenFault::NotWellFormed)
    }
}

// Sets a standing sheet over just these cells, if they are a full sheet's.
pub fn open<'a>(list: &'a [i32], place: &mut Sheet<'a>) -> Result<(), OpenFault>
    ensures { Opened (well_formed list.now) result list.entry place.old place.new }
{
    check(list)?;
    *place = Sheet { list };
    Ok(())
}
