// What a collection kept, published to be asked.
use crate::table::Table;
use algebra::field::Field;

// Answers questions only; publication made it of a collection.
#[derive(Drop)]
pub struct Published<F: Field + Drop> {
    pub(crate) field: F,
    pub(crate) table: Table,
}
