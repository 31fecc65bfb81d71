// Calls on matrices.

mod cells;
mod copies;
mod graphs;
mod making;
mod reading;
mod rows;
