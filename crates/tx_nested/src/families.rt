//! Nested maps as the families of a region. What is seen of them stands in `sees`, what changes
//! them in `changes`.
use crate::NestedCells;
use std::alloc::Global;
use tx_cells::{Families, Fresh, Holds};

impl Holds for NestedCells {
    ghost use Rattle.tx_nested.specs.Nested.{nested_content, nested_numbers};

    ghost content = { nested_content };

    ghost numbers = { nested_numbers };
}

impl Families for NestedCells {}

impl Fresh for NestedCells {
    fn fresh(alloc: Global) -> NestedCells {
        NestedCells::new(alloc)
    }
}
