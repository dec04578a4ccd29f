//! Files that are read and written between two lines that are typed.
use std::fs::File;
use std::io::Write;
use std::{fs, io};
use tx_hints::escaped;

// Tells why a file is not read or written. What cannot be told is left out.
fn tell(host: HostRuntime, name: &str, why: &str) {
    if let Ok(name) = escaped(host.alloc(), name) {
        let _ = eprintln!(host; "txkv: {name}: {why}");
    }
}

/// What a file has, where it can be read; else it is told why not.
pub(crate) fn read_file(host: HostRuntime, name: &str) -> Option<Vec<u8>> {
    match fs::read(&host, name) {
        Ok(text) => Some(text),
        Err(error) => {
            if let Ok(why) = format!(in host.alloc(); "{error}") {
                tell(host, name, why.as_str());
            }
            None
        }
    }
}

// Writes a new file.
fn write_new(host: HostRuntime, name: &str, text: &[u8]) -> io::Result<()> {
    let mut file = File::create_new(&host, name)?;
    file.write_all(text)
}

/// Writes a new file; where it cannot be, or there is one of this name, it is told why not.
pub(crate) fn write_file(host: HostRuntime, name: &str, text: &[u8]) {
    if let Err(error) = write_new(host, name, text) {
        if let Ok(why) = format!(in host.alloc(); "{error}") {
            tell(host, name, why.as_str());
        }
    }
}
