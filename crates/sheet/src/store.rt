// The cells that values go into.
ghost use Rattle.std.specs.Prelude.{◌≡◌};
ghost use Rattle.sheet.specs.Store.{put, puts};

// Values go into the cells lent from `next` on, as far as these reach: an empty slice takes nothing.
#[derive(Drop)]
pub(crate) struct Store<'a> {
    pub cells: &'a mut [i32],
    pub next: usize,
}

impl<'a> Store<'a> {
    pub(crate) fn over(cells: &'a mut [i32]) -> Store<'a>
        ensures { result ≡ record { cells = cells.entry; next = 0 } }
    {
        Store { cells, next: 0 }
    }

    pub(crate) fn put(&mut self, value: i32)
        ensures { self.new ≡ put self.old value }
    {
        if self.next < self.cells.len() {
            self.cells[self.next] = value;
            self.next += 1;
        }
    }

    // Where no cell is free, as in each check of a list, no value is looked at. One by one: to copy a slice, both would have to be
    // cut first, and what `put` promises be said again of many values.
    pub(crate) fn put_all(&mut self, values: &[i32])
        ensures { self.new ≡ puts self.old values.now }
    {
        if self.next < self.cells.len() {
            for value in values {
                self.put(*value);
            }
        }
    }
}
