// The shelves that are built, each proved to show the meaning of a shelf.
#![tactic(auto)]

pub mod byte_grid;
pub mod byte_grid_making;
pub mod cells;
pub mod grid;
pub mod grid_making;
pub mod join;
pub mod ramp;
pub mod ramp_making;
pub mod single;
pub mod window;

pub use byte_grid::ByteGrid;
pub use byte_grid_making::{check_byte_grid, make_byte_grid};
pub use cells::{Cells, FixedCells};
pub use grid::Grid;
pub use grid_making::{check_grid, make_grid};
pub use join::Join;
pub use ramp::Ramp;
pub use ramp_making::{check_ramp, make_ramp};
pub use single::Single;
pub use window::{Window, check_window, make_window};
