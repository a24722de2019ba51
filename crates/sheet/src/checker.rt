// A list of cells, whose fields are taken one after the other.
ghost use Rattle.std.specs.Prelude.{◌≤◌, length};

use layout::fault::Place;

// `place.byte` is the index of the next cell.
#[derive(Drop)]
pub(crate) struct Checker<'a> {
    pub list: &'a [i32],
    pub place: Place,
    ghost inside: { place.byte ≤ length list.now },
}
