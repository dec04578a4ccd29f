//! Flat maps as the families of a region. What is seen of them stands in `sees`, what changes them
//! in `changes`.
use crate::FlatCells;
use std::alloc::Global;
use tx_cells::{Families, Fresh, Holds};

impl Holds for FlatCells {
    ghost use Rattle.tx_flat.specs.Flats.{flat_content};
    ghost use Rattle.tx_flat.specs.Numbered.{flat_numbers};

    ghost content = { flat_content };

    ghost numbers = { flat_numbers };
}

impl Families for FlatCells {}

impl Fresh for FlatCells {
    fn fresh(alloc: Global) -> FlatCells {
        FlatCells::new(alloc)
    }
}
