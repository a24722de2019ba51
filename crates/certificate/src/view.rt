// A dossier's cells for reading, with the head at hand.
ghost use Rattle.std.specs.Prelude.{◌≡◌, ◌^◌, ◌<◌, ◌≤◌};
ghost use Rattle.layout.specs.Heads.{counts_of};
ghost use Rattle.dossier.specs.Dossier as parts;
ghost use Rattle.certificate.specs.Arrays.{row_of};

use crate::rows::Row;
use layout::head::Head;
use sources::source::Source;

#[derive(Drop)]
pub(crate) struct View<'a, S: Source> {
    pub(crate) source: &'a S,
    pub(crate) head: Head,
    ghost agrees: { counts_of head ≡ parts.head (S.cells source.now) },
}

impl<'a, S: Source> View<'a, S> {
    pub(crate) fn of(source: &'a S) -> Self
        ensures { result.source ≡ source.entry }
    {
        View {
            source,
            head: source.head(),
        }
    }

    pub(crate) fn cell(&self, index: usize) -> i32
        ensures { result ≡ parts.cell (S.cells self.now.source.now) index }
    {
        self.source.cell(index)
    }

    // The number that stands at an index where a count is due.
    pub(crate) fn number(&self, index: usize) -> usize
        ensures value { result ≡ parts.number (S.cells self.now.source.now) index }
        ensures bounded { result < 2 ^ 31 }
    {
        self.cell(index).max(0) as usize
    }

    // The row whose constant stands at an index.
    pub(crate) fn row_at(&self, at: usize) -> Row
        requires { at < 2 ^ 32 }
        ensures { row_of result ≡ parts.row_at (S.cells self.now.source.now) at }
    {
        let mut row = [0; 7];
        let width = self.head.variables as usize + 1;
        for (j, number) in row[..width].iter_mut().enumerate() {
            *number = self.cell(at + j) as i64;
        }
        row
    }
}
