// Shelves by their meaning: a list of coverages that can be described, found by name and looked at,
// and that may take strips. What each call answers and leaves is in specs/.
#![tactic(auto)]

pub mod fault;
pub mod fit;
pub mod traits;

pub use fault::{MakingFault, ShelfFault};
pub use traits::{ReceivingShelf, Shelf};
