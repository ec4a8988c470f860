//! The recording of a server: a transcript of what came to it.

use rad_config::TEXT_MAX;
use std::fs::{OpenFile, OpenOptions};
use std::io;
use std::io::Write;
use std::os::unix::fs::OpenOptionsExt;
use std::rt::Files;

/// The mode of a recording, which has secrets and passwords in the clear.
const RECORDING_MODE: u32 = 0o600;

/// A file to which texts are appended.
#[derive(Drop)]
pub(crate) struct Recording<F> {
    file: F,
    // How many octets it has.
    len: usize,
}

impl<F: Write + OpenFile + Drop> Recording<F> {
    /// An empty recording in a file that isn't there yet.
    pub fn begin<R: Files<File = F>>(rt: &R, path: &str) -> io::Result<Recording<F>> {
        let file = OpenOptions::new()
            .write(true)
            .create_new(true)
            .mode(RECORDING_MODE)
            .open(rt, path)?;
        Ok(Recording { file, len: 0 })
    }

    /// Appends a text, unless a replay couldn't read so much. A text that can't be written whole is cut off again.
    pub fn append(&mut self, text: &[u8]) -> io::Result<()> {
        let len = self.len.saturating_add(text.len());
        if len > TEXT_MAX {
            return Err(io::Error::from(io::ErrorKind::FileTooLarge));
        }
        if let Err(error) = self.file.write_all(text) {
            let _ = self.file.set_len(self.len as u64);
            return Err(error);
        }
        self.len = len;
        Ok(())
    }
}
