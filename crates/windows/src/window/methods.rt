// Making a window, and what it tells.
ghost use Rattle.std.specs.Prelude.{◌≡◌, length, Ok};
ghost use Rattle.windows.specs.Shown.{shown};
ghost use Rattle.windows.specs.Sides.{checked};

use crate::window::Window;

impl<'a> Window<'a> {
    // The slice with these sides, for which the check passed: the one function that asks something of its callers.
    pub fn new(cells: &'a mut [u32], rows: usize, columns: usize) -> Window<'a>
        requires { checked rows columns (length cells.old) ≡ Ok tt }
        ensures shows { shown result ≡ record { rows = rows; columns = columns; cells = cells.old } }
        ensures lends { result.cells ≡ cells.entry }
    {
        Window {
            cells,
            rows,
            columns,
        }
    }

    pub fn rows(&self) -> usize
        ensures { result ≡ (shown self.now).rows }
    {
        self.rows
    }

    pub fn columns(&self) -> usize
        ensures { result ≡ (shown self.now).columns }
    {
        self.columns
    }

    // The codes, row after row.
    pub fn cells(&self) -> &[u32]
        ensures { result.now ≡ (shown self.now).cells }
    {
        self.cells
    }

    // The lent slice again.
    pub fn into_cells(self) -> &'a mut [u32]
        ensures { result ≡ self.entry.cells }
    {
        let Window { cells, .. } = self;
        cells
    }
}
