//! A bench and a source in memory, which fail where they are told to. Tests run the program over them.
#![tactic(auto)]

mod areas;
mod call;
mod event;
mod memory;
mod plan;
mod source;
mod space;
mod tape;

pub use call::Call;
pub use event::Pick;
pub use memory::MemoryBench;
pub use source::MemorySource;
