// Table files and lists of rows: tested, read and written.
#![tactic(auto)]

pub mod file;
mod frame;
pub mod header;
pub mod list;
pub mod repeat;
pub mod row;
pub mod table;
pub mod write;
