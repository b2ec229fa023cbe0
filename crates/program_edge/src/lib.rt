//! What a program reads from and writes to: files by name, an output and a clock, in memory and of the system.
#![tactic(auto)]

mod clock;
mod fail_plan;
mod file_shelf;
mod fixed_clock;
mod host_clock;
mod memory_shelf;
mod memory_sink;
mod out_sink;
mod shelf;
mod sink;

pub use clock::Clock;
pub use file_shelf::FileShelf;
pub use fixed_clock::FixedClock;
pub use host_clock::HostClock;
pub use memory_shelf::MemoryShelf;
pub use memory_sink::MemorySink;
pub use out_sink::OutSink;
pub use shelf::{Shelf, ShelfErr};
pub use sink::{Sink, SinkErr};
