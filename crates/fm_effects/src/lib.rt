//! The pieces of a Finish, made before it: the archived copies that the links given need, and the changes of files of a transaction.
#![tactic(auto)]

mod batch;
mod change;
mod copying;
mod laws;
mod owners;
mod sites;
mod sources;

pub use batch::changes;
pub use copying::copies;
pub use laws::{
    a_batch_settles_the_files, a_batch_without_fill_puts_no_file,
    a_finish_reads_its_paths_and_numbers,
};
