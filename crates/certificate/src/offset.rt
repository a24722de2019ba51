// Where the parts of a dossier begin in its cells. That a number is that of a step, an edge, a point or a proposition is asked by
// clauses, here and in what calls: a number with such a fact would be a type of its own for each dossier, made in every loop and
// left at every sum.
ghost use Rattle.std.specs.Prelude.{◌≡◌, ◌+◌, ◌*◌, ◌<◌, ◌≤◌};
ghost use Rattle.layout.specs.Layout.{point_rows, conclusions};
ghost use Rattle.dossier.specs.Admission.{moves};
ghost use Rattle.dossier.specs.Dossier as parts;

use crate::view::View;
use sources::source::Source;

impl<'a, S: Source> View<'a, S> {
    pub(crate) fn row_width(&self) -> usize
        ensures value { result ≡ parts.row_width (parts.head (S.cells self.now.source.now)) }
        ensures bounded { result ≤ 7 }
    {
        self.head.variables as usize + 1
    }

    pub(crate) fn rows_of_point(&self) -> usize
        ensures value { result ≡ point_rows (parts.head (S.cells self.now.source.now)) }
        ensures bounded { result ≤ 6 }
    {
        self.head.region_rows as usize + self.head.rank_numbers as usize
    }

    pub(crate) fn start_row_at(&self, i: usize) -> usize
        requires { i ≤ 4 }
        ensures value { result ≡ parts.start_row_at (parts.head (S.cells self.now.source.now)) i }
        ensures bounded { result ≤ 41 }
    {
        13 + i * self.row_width()
    }

    fn step_width(&self) -> usize
        ensures value { result ≡ parts.step_width (parts.head (S.cells self.now.source.now)) }
        ensures bounded { result ≤ 72 }
    {
        let width = self.row_width();
        2 + self.head.variables as usize * width + self.head.guards as usize * width
    }

    pub(crate) fn step_at(&self, t: usize) -> usize
        requires { t ≤ 16 }
        ensures value { result ≡ parts.step_at (parts.head (S.cells self.now.source.now)) t }
        ensures bounded { result ≤ 1193 }
    {
        self.start_row_at(self.head.start_rows as usize) + t * self.step_width()
    }

    pub(crate) fn proposition_at(&self, i: usize) -> usize
        requires { i ≤ 8 }
        ensures value { result ≡ parts.proposition_at (parts.head (S.cells self.now.source.now)) i }
        ensures bounded { result ≤ 1265 }
    {
        self.step_at(self.head.steps as usize) + i * (2 + self.row_width())
    }

    pub(crate) fn state_at(&self, q: usize) -> usize
        requires { q ≤ 4 }
        ensures value { result ≡ parts.state_at (parts.head (S.cells self.now.source.now)) q }
        ensures bounded { result ≤ 1269 }
    {
        self.proposition_at(self.head.propositions as usize) + q
    }

    pub(crate) fn edge_at(&self, e: usize) -> usize
        requires { e ≤ 12 }
        ensures value { result ≡ parts.edge_at (parts.head (S.cells self.now.source.now)) e }
        ensures bounded { result ≤ 1317 }
    {
        self.state_at(self.head.states as usize) + e * 4
    }

    pub(crate) fn points(&self) -> usize
        ensures value { result ≡ parts.points (parts.head (S.cells self.now.source.now)) }
        ensures bounded { result ≤ 32 }
    {
        self.head.places as usize * self.head.states as usize
    }

    pub(crate) fn point_at(&self, p: usize) -> usize
        requires { p ≤ 32 }
        ensures value { result ≡ parts.point_at (parts.head (S.cells self.now.source.now)) p }
        ensures bounded { result ≤ 2661 }
    {
        self.edge_at(self.head.edges as usize) + p * (self.rows_of_point() * self.row_width())
    }

    pub(crate) fn start_line_at(&self, k: usize) -> usize
        requires { k ≤ 6 }
        ensures value { result ≡ parts.start_line_at (parts.head (S.cells self.now.source.now)) k }
        ensures bounded { result ≤ 2691 }
    {
        self.point_at(self.points()) + k * (1 + self.head.start_rows as usize)
    }

    pub(crate) fn move_hypotheses(&self) -> usize
        ensures value { result ≡ parts.move_hypotheses (parts.head (S.cells self.now.source.now)) }
        ensures bounded { result ≤ 18 }
    {
        self.rows_of_point() + self.head.guards as usize + self.head.propositions as usize
    }

    pub(crate) fn conclusions_of(&self) -> usize
        ensures value { result ≡ conclusions (parts.head (S.cells self.now.source.now)) }
        ensures bounded { result ≤ 8 }
    {
        self.head.region_rows as usize + 2 * self.head.rank_numbers as usize
    }

    pub(crate) fn moves(&self) -> usize
        ensures value { result ≡ moves (S.cells self.now.source.now) }
        ensures bounded { result ≤ 192 }
    {
        self.head.steps as usize * self.head.edges as usize
    }

    pub(crate) fn move_at(&self, m: usize) -> usize
        requires { m ≤ 192 }
        ensures value { result ≡ parts.move_at (parts.head (S.cells self.now.source.now)) m }
        ensures bounded { result ≤ 32067 }
    {
        self.start_line_at(self.rows_of_point())
            + m * (1 + self.conclusions_of() * (1 + self.move_hypotheses()))
    }

    pub(crate) fn move_line_at(&self, m: usize, k: usize) -> usize
        requires place { m ≤ 192 }
        requires line { k ≤ 8 }
        ensures value { result ≡ parts.move_line_at (parts.head (S.cells self.now.source.now)) m k }
        ensures bounded { result ≤ 32220 }
    {
        self.move_at(m) + 1 + k * (1 + self.move_hypotheses())
    }

    pub(crate) fn shown_at(&self, i: usize) -> usize
        requires { i ≤ 6 }
        ensures value { result ≡ parts.shown_at (parts.head (S.cells self.now.source.now)) i }
        ensures bounded { result ≤ 2667 }
    {
        self.point_at(self.points()) + i
    }

    pub(crate) fn point_conclusions(&self) -> usize
        ensures value { result ≡ parts.point_conclusions (parts.head (S.cells self.now.source.now)) }
        ensures bounded { result ≤ 20 }
    {
        self.head.guards as usize + self.head.propositions as usize + self.conclusions_of()
    }

    pub(crate) fn choice_at(&self, p: usize) -> usize
        requires { p ≤ 32 }
        ensures value { result ≡ parts.choice_at (parts.head (S.cells self.now.source.now)) p }
        ensures bounded { result ≤ 7243 }
    {
        self.shown_at(self.head.variables as usize)
            + p * (3 + self.point_conclusions() * (1 + self.rows_of_point()))
    }

    pub(crate) fn point_line_at(&self, p: usize, k: usize) -> usize
        requires place { p ≤ 32 }
        requires line { k ≤ 20 }
        ensures value { result ≡ parts.point_line_at (parts.head (S.cells self.now.source.now)) p k }
        ensures bounded { result ≤ 7386 }
    {
        self.choice_at(p) + 3 + k * (1 + self.rows_of_point())
    }
}
