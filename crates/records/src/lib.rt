//! Jobs: records of eight bytes, read one after another, and the map that they describe.
#![tactic(auto)]

mod building;
mod fields;
mod reading;

pub use building::{build, joined, opened};
pub use fields::Record;
pub use reading::{MOST_BYTES, Reader, check_length};
