// Tables of rows, filled from the front.
use crate::rows::Row;
use arrayvec::ArrayVec;

// As many rows as the lines of a point have to show. That there is room is asked by a clause of whatever
// pushes: a vector's own `extend` and `try_push` answer a fault instead, which could not come about here.
pub(crate) type Table = ArrayVec<Row, 20>;
