// Dossier sources: a list of cells, told cell by cell.
ghost use Rattle.std.specs.Prelude.{◌≡◌, true, List, length, ℤ, pos, slice_index_or};
ghost use Rattle.layout.specs.Cells.{well_formed};
ghost use Rattle.layout.specs.Heads.{counts_of};
ghost use Rattle.layout.specs.Layout.{counts};

use layout::head::Head;
use layout::head_cells::HeadCells;

// A source means a list of cells, which is well formed. A question changes nothing.
pub trait Source {
    ghost cells: { Self → List ℤ };

    ghost formed: { (s : Self) → well_formed (cells s) ≡ true };

    fn count(&self) -> usize
        ensures { result ≡ length (cells self.now) };

    // What a cell holds, 0 beyond the last.
    fn cell(&self, index: usize) -> i32
        ensures { result ≡ slice_index_or (cells self.now) index (pos 0) };

    // The numbers of its head line.
    fn head(&self) -> Head
        ensures { counts_of result ≡ counts (cells self.now) }
    {
        let cells = [
            self.cell(0),
            self.cell(1),
            self.cell(2),
            self.cell(3),
            self.cell(4),
            self.cell(5),
            self.cell(6),
            self.cell(7),
            self.cell(8),
            self.cell(9),
            self.cell(10),
            self.cell(11),
            self.cell(12),
        ];
        Head::from(HeadCells { cells })
    }
}
