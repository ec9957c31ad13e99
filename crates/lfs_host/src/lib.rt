//! What the program needs of the system that it runs on, and a host in memory.
#![tactic(auto)]

mod failing;
mod folders;
mod host;
mod host_fault;
mod host_kind;
mod known;
mod list_fault;
mod lock;
mod made_entry;
mod make_fault;
mod memory_files;
mod memory_host;
mod memory_tree;
mod new_folder;
mod quoted;
mod read_fault;
mod told;

pub use failing::Failing;
pub use folders::Folders;
pub use host::Host;
pub use host_fault::HostFault;
pub use host_kind::HostKind;
pub use known::Known;
pub use list_fault::ListFault;
pub use lock::Lock;
pub use made_entry::MadeEntry;
pub use make_fault::MakeFault;
pub use memory_files::MemoryFiles;
pub use memory_host::MemoryHost;
pub use memory_tree::memory_folders_have_no_gap;
pub use new_folder::NewFolder;
pub use quoted::Quoted;
pub use read_fault::ReadFault;
pub use told::Told;
