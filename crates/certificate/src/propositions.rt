// The proposition rows of an edge at a place.
ghost use Rattle.std.specs.Prelude.{[], ◌≡◌, ◌+◌, ◌<◌, ◌≤◌, ◌++◌, length};
ghost use Rattle.dossier.specs.Admission as admission;
ghost use Rattle.dossier.specs.Dossier as parts;
ghost use Rattle.certificate.specs.Arrays.{row_of, held};

use crate::rows::{Row, difference, minus_one, zero_row};
use crate::table::Table;
use crate::view::View;
use sources::source::Source;

// Whether a bit of a mask is set.
fn bit(mask: usize, index: usize) -> bool
    requires { index ≤ 8 }
    ensures { result ≡ parts.bit index mask }
{
    (mask >> index) % 2 == 1
}

// A demand on the place.
fn demand(met: bool) -> Row
    ensures { row_of result ≡ admission.demand [] met }
{
    if met { zero_row() } else { minus_one() }
}

impl<'a, S: Source> View<'a, S> {
    // The row of a proposition that must hold at a place. One function of this and the next would branch on a flag twice.
    fn wanted(&self, place: usize, index: usize) -> Row
        requires { index ≤ 8 }
        ensures { row_of result ≡ admission.wanted (S.cells self.now.source.now) place index }
    {
        if self.is_place(index) {
            demand(place == self.proposition_place(index))
        } else {
            self.proposition_row(index)
        }
    }

    // The row of a proposition that must not hold at a place.
    fn unwanted(&self, place: usize, index: usize) -> Row
        requires { index < self.now.head.propositions }
        ensures { row_of result ≡ admission.unwanted (S.cells self.now.source.now) place index }
    {
        if self.is_place(index) {
            demand(place != self.proposition_place(index))
        } else {
            difference(&zero_row(), &self.proposition_row(index), 1)
        }
    }

    // The row of a proposition for an edge at a place.
    fn edge_row(&self, edge: usize, place: usize, index: usize) -> Row
        requires edge { edge ≤ 12 }
        requires index { index < self.now.head.propositions }
        ensures { row_of result ≡ admission.edge_row (S.cells self.now.source.now) edge place index }
    {
        if bit(self.must(edge), index) {
            self.wanted(place, index)
        } else if bit(self.must_not(edge), index) {
            self.unwanted(place, index)
        } else {
            zero_row()
        }
    }

    // Pushes the proposition rows of an edge at a place.
    pub(crate) fn push_edge_rows(&self, edge: usize, place: usize, table: &mut Table)
        requires edge { edge ≤ 12 }
        requires room { length (held table.old) + self.now.head.propositions ≤ 20 }
        ensures { held table.new ≡ held table.old ++ admission.edge_rows (S.cells self.now.source.now) edge place }
    {
        for index in 0..self.head.propositions as usize {
            table.push(self.edge_row(edge, place, index));
        }
    }
}
