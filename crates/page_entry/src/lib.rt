//! The bytes of an entry, a point and its cell, where it lies in a leaf: reading, comparing, joining and writing them.
#![tactic(auto)]

mod cell;
mod coded;
mod order;
mod put;
mod read;
mod region;
mod run;
mod size;

pub use coded::{Coded, lent_entry};
pub use order::{
    are_coordinates_positive, coordinate_at, is_next_point, is_next_positive, is_pair_after,
    last_two,
};
pub use put::{put_coordinate, put_entry};
pub use read::{entry_at, part_at};
pub use run::{CodedRun, lent_run};
pub use size::{COUNT, HEADER, NARROW, PAGE, PART, WIDE, size_of_entry, size_of_point};
