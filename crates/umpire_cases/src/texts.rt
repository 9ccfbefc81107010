//! Files of the system, read whole.

use anyhow::{Result, bail};
use um_num::List;
use um_outside::{FileDesk, FileFault, read_file};

/// The most bytes that a file of a case may have.
pub const MOST_BYTES: usize = 1_000_000;

/// The bytes of a file; `None` where there is no such file.
pub fn bytes_of(rt: &HostRuntime, name: &str) -> Result<Option<List<u8>>> {
    let mut desk = FileDesk::new(rt);
    match read_file(rt.alloc(), &mut desk, name, MOST_BYTES) {
        Ok(bytes) => Ok(Some(bytes)),
        Err(FileFault::Fault) => Ok(None),
        Err(fault) => Err(fault.into()),
    }
}

/// The text of a file that must be there.
pub fn text_of(rt: &HostRuntime, name: &str) -> Result<String> {
    match bytes_of(rt, name)? {
        Some(bytes) => Ok(String::from_utf8_lossy(rt.alloc(), bytes.as_slice())?),
        None => bail!("there is no file {name}"),
    }
}
