// What stands in a dossier's cells, part by part.
ghost use Rattle.std.specs.Prelude.{◌≡◌, ◌^◌, ◌<◌, ◌≤◌};
ghost use Rattle.dossier.specs.Dossier as parts;
ghost use Rattle.certificate.specs.Arrays.{row_of};

use crate::rows::Row;
use crate::view::View;
use sources::source::Source;

impl<'a, S: Source> View<'a, S> {
    pub(crate) fn step_from(&self, step: usize) -> usize
        requires { step ≤ 16 }
        ensures value { result ≡ parts.step_from (S.cells self.now.source.now) step }
        ensures bounded { result < 2 ^ 31 }
    {
        self.number(self.step_at(step))
    }

    pub(crate) fn step_to(&self, step: usize) -> usize
        requires { step ≤ 16 }
        ensures value { result ≡ parts.step_to (S.cells self.now.source.now) step }
        ensures bounded { result < 2 ^ 31 }
    {
        self.number(self.step_at(step) + 1)
    }

    // The new value of a variable after a step.
    pub(crate) fn update(&self, step: usize, variable: usize) -> Row
        requires step { step ≤ 16 }
        requires variable { variable ≤ 6 }
        ensures { row_of result ≡ parts.update (S.cells self.now.source.now) step variable }
    {
        self.row_at(self.step_at(step) + 2 + variable * self.row_width())
    }

    pub(crate) fn is_place(&self, proposition: usize) -> bool
        requires { proposition ≤ 8 }
        ensures { result ≡ parts.is_place (S.cells self.now.source.now) proposition }
    {
        self.number(self.proposition_at(proposition)) == 1
    }

    pub(crate) fn proposition_place(&self, proposition: usize) -> usize
        requires { proposition ≤ 8 }
        ensures { result ≡ parts.proposition_place (S.cells self.now.source.now) proposition }
    {
        self.number(self.proposition_at(proposition) + 1)
    }

    pub(crate) fn proposition_row(&self, proposition: usize) -> Row
        requires { proposition ≤ 8 }
        ensures { row_of result ≡ parts.proposition_row (S.cells self.now.source.now) proposition }
    {
        self.row_at(self.proposition_at(proposition) + 2)
    }

    pub(crate) fn marked_state(&self, state: usize) -> bool
        requires { state ≤ 4 }
        ensures { result ≡ parts.marked_state (S.cells self.now.source.now) state }
    {
        self.number(self.state_at(state)) == 1
    }

    pub(crate) fn edge_from(&self, edge: usize) -> usize
        requires { edge ≤ 12 }
        ensures value { result ≡ parts.edge_from (S.cells self.now.source.now) edge }
        ensures bounded { result < 2 ^ 31 }
    {
        self.number(self.edge_at(edge))
    }

    pub(crate) fn edge_to(&self, edge: usize) -> usize
        requires { edge ≤ 12 }
        ensures value { result ≡ parts.edge_to (S.cells self.now.source.now) edge }
        ensures bounded { result < 2 ^ 31 }
    {
        self.number(self.edge_at(edge) + 1)
    }

    // The mask of the propositions that must hold.
    pub(crate) fn must(&self, edge: usize) -> usize
        requires { edge ≤ 12 }
        ensures { result ≡ parts.must (S.cells self.now.source.now) edge }
    {
        self.number(self.edge_at(edge) + 2)
    }

    // The mask of the propositions that must not hold.
    pub(crate) fn must_not(&self, edge: usize) -> usize
        requires { edge ≤ 12 }
        ensures { result ≡ parts.must_not (S.cells self.now.source.now) edge }
    {
        self.number(self.edge_at(edge) + 3)
    }

    pub(crate) fn move_mode(&self, index: usize) -> usize
        requires { index ≤ 192 }
        ensures { result ≡ parts.move_mode (S.cells self.now.source.now) index }
    {
        self.number(self.move_at(index))
    }

    pub(crate) fn shown(&self, variable: usize) -> i32
        requires { variable ≤ 6 }
        ensures { result ≡ parts.shown (S.cells self.now.source.now) variable }
    {
        self.cell(self.shown_at(variable))
    }

    pub(crate) fn choice_mode(&self, point: usize) -> usize
        requires { point ≤ 32 }
        ensures { result ≡ parts.choice_mode (S.cells self.now.source.now) point }
    {
        self.number(self.choice_at(point))
    }

    pub(crate) fn choice_step(&self, point: usize) -> usize
        requires { point ≤ 32 }
        ensures { result ≡ parts.choice_step (S.cells self.now.source.now) point }
    {
        self.number(self.choice_at(point) + 1)
    }

    pub(crate) fn choice_edge(&self, point: usize) -> usize
        requires { point ≤ 32 }
        ensures { result ≡ parts.choice_edge (S.cells self.now.source.now) point }
    {
        self.number(self.choice_at(point) + 2)
    }
}
