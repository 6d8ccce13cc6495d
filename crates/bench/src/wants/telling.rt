//! What the program says.

use crate::fault::Fault;

/// Says that a call wants memory.
pub fn tell_want(rt: &HostRuntime, call: &str) -> Result<(), Fault> {
    println!(rt; "{call} refused 0 OutOfMemory")?;
    Ok(())
}

/// Says to which numbers a call came.
pub fn tell_two(rt: &HostRuntime, call: &str, first: u64, second: u64) -> Result<(), Fault> {
    println!(rt; "{call} {first} {second}")?;
    Ok(())
}

/// Says to which number a call came.
pub fn tell_one(rt: &HostRuntime, call: &str, number: u64) -> Result<(), Fault> {
    println!(rt; "{call} {number}")?;
    Ok(())
}
