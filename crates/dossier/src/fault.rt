// Why a dossier is not admitted.

#[derive(Clone, Copy, Debug, PartialEq, Eq)]
pub enum AdmitFault {
    // another form or count of rank numbers than called for: those of the dossier, both as numbers, since they are the places
    // of the refusal and the test that fails is defined with them
    Other { form: usize, numbers: usize },
    // no edge from a state matches a letter
    NoEdge { state: usize, letter: usize },
    StartLine { line: usize },
    MoveLine { number: usize, line: usize },
    // the shown values fail a start row, or a region or rank row of the start point
    Shown { row: usize },
    // the chosen step begins at another place
    StepElsewhere { point: usize },
    // the chosen edge begins at another state
    EdgeElsewhere { point: usize },
    PointLine { point: usize, line: usize },
}
