//! Reading a policy file.

mod arrays;
mod file;
mod rows;
mod values;

pub use file::read_policy;
