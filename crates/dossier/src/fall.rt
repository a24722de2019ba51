// A fall row: nothing, or how far one number of a rank falls. No Option of the two others: the definitions of rank kinds match
// on all three at once.

#[derive(Clone, Copy)]
pub enum Fall {
    // the zero row
    None,
    // old minus new of a rank's number
    Keeps { number: usize },
    // old minus new of a rank's number, less 1
    Drops { number: usize },
}
