//! What a program has outside itself: volumes of bytes that a crash may cut short, an input that may be one of
//! several connections, and an output. `World` says what is known of it, `MemoryWorld` meets that in memory, tells
//! all and fails where it is told to, and `RealWorld` stands on files and the standard streams.
#![tactic(auto)]

mod counters;
mod disk;
mod folder;
mod memory;
mod plan;
mod real;
mod replay;
mod world;

pub use disk::Event;
pub use memory::{MemoryWorld, OutOfMemory};
pub use real::RealWorld;
pub use replay::Pick;
pub use world::{DoorFault, InputFault, OutputFault, Side, VolumeFault, World};
