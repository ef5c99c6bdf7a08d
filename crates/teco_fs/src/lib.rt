//! Files: those of the system and those in memory, and how an output is written whole.
#![tactic(auto)]

mod comparing;
mod disk;
mod draft;
mod failures;
mod file_disk;
mod keeping;
mod link;
mod lock;
mod memory_disk;
mod output;
mod piped;
mod reading;
mod reason;
mod refusing;
mod shared;
mod standard;
mod target;
mod unkept;

pub use comparing::has_bytes;
pub use disk::Disk;
pub use file_disk::FileDisk;
pub use keeping::keep_file;
pub use memory_disk::{MemoryDisk, RefusedCall};
pub use output::{Drafts, Written, write_output, write_output_by};
pub use piped::{Piped, UntilLeft};
pub use reading::read_whole;
pub use reason::{Reason, reason_of, unless_memory};
pub use refusing::{refuse, tell, tell_no_memory};
pub use standard::hold_standard_streams;
pub use target::Target;
pub use unkept::Unkept;
