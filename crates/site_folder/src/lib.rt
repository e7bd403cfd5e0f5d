//! The site over four files of a folder and an output, and the source over a reader, made of single calls of the
//! system.
//!
//! Two traits, `Host` and `Reader`, say what the system does in one call. All loops over such calls, their order and the
//! handling of their faults are proved here, for every host and reader that keeps to its trait.
#![tactic(auto)]

mod calls;
mod host;
mod input;
mod notes;
mod reader;
mod site;

pub use host::Host;
pub use input::Input;
pub use reader::Reader;
pub use site::FolderSite;
