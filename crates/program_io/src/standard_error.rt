//! Standard error as a writer.

use std::io;
use std::io::Write;
use std::rt::Runtime;

/// Standard error as a writer of text, which keeps nothing back.
#[derive(Drop)]
pub struct StandardError<'a, R>(pub &'a R);

impl<R: Runtime> Write for StandardError<'_, R> {
    fn write(&mut self, bytes: &[u8]) -> io::Result<usize> {
        match str::from_utf8(bytes) {
            Ok(text) => {
                self.0.eprint(text)?;
                Ok(bytes.len())
            }
            Err(_) => Err(io::Error::from(io::ErrorKind::InvalidData)),
        }
    }

    fn flush(&mut self) -> io::Result<()> {
        Ok(())
    }
}
