// The table of a collection.
ghost use Rattle.std.specs.Prelude.{◌≤◌};

// The most unknowns that a collection can have.
pub const UNKNOWNS: usize = 64;

// The cells of a slot at that many: coefficients, a value, and a weight for each equation kept.
pub const CELLS: usize = 2 * UNKNOWNS + 1;

// A slot for each column.
pub(crate) type Slots = [[u32; CELLS]; UNKNOWNS];

// With n unknowns, slot p below n holds the reduced row whose pivot is p, or zeros where column p is free: n coefficients, the
// value, and n weights that build the row from the kept equations. `count` equations are kept. The slots are of fixed size, so that
// a collection needs no memory from elsewhere.
#[derive(Drop)]
pub struct Table {
    pub(crate) slots: Slots,
    pub(crate) count: usize,
    pub(crate) width: usize,
    ghost few: { count ≤ width },
    ghost narrow: { width ≤ 64 },
}
