//! Where bytes come from and go to: `Source`, `Sink` and `Shelf`, and objects of each.
//!
//! A call answers Failed only where the object's count of faults rose in it. Such a read took nothing, such a write
//! appended nothing, such a pick left the bytes as they were. Objects in memory tell their bytes, so whoever drives
//! them can say what was written of what was read; steady ones never fail by themselves. The three over the
//! runtime are the trusted edge: they tell only counts.
#![tactic(auto)]

mod calls;
mod dir_shelf;
mod failed;
mod files;
mod memory_shelf;
mod memory_sink;
mod memory_source;
mod portion;
mod remainder;
mod reserve;
mod shelf;
mod sink;
mod source;
mod standard;
mod steady_shelf;
mod steady_sink;
mod steady_source;

pub use dir_shelf::DirShelf;
pub use failed::Failed;
pub use memory_shelf::MemoryShelf;
pub use memory_sink::MemorySink;
pub use memory_source::MemorySource;
pub use shelf::Shelf;
pub use sink::Sink;
pub use source::Source;
pub use standard::{StdSink, StdSource};
pub use steady_shelf::SteadyShelf;
pub use steady_sink::SteadySink;
pub use steady_source::SteadySource;
