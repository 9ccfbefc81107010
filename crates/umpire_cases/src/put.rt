//! What the program writes.

use anyhow::Result;
use um_outside::{StdSink, write_all};

/// Writes these bytes to standard output.
pub fn put(rt: &HostRuntime, bytes: &[u8]) -> Result<()> {
    let mut out = StdSink::new(rt);
    write_all(&mut out, bytes)?;
    Ok(())
}

/// Writes what the bytes are, how many they are, and the bytes.
pub fn put_counted(rt: &HostRuntime, what: &str, bytes: &[u8]) -> Result<()> {
    let count = bytes.len();
    println!(rt; "-- {what}, {count} bytes")?;
    put(rt, bytes)
}
