//! A reader that notes how its reads end.
ghost use Rattle.std.specs.Prelude.{◌≡◌};

use std::io;
use std::io::Read;

/// A reader, how many octets it has given, and why its last read failed, if it did.
#[derive(Drop)]
pub(crate) struct NotingReader<R> {
    reader: R,
    pub octets: u64,
    pub failure: Option<io::Error>,
}

impl<R> NotingReader<R> {
    /// A reader that hasn't been read yet.
    pub fn of(reader: R) -> NotingReader<R>
        ensures { result.reader ≡ reader }
    {
        NotingReader {
            reader,
            octets: 0,
            failure: None,
        }
    }

    // Notes how a read has ended.
    fn note(&mut self, read: &io::Result<usize>)
        ensures { self.new.reader ≡ self.old.reader }
    {
        match read {
            Ok(count) => {
                self.octets = self.octets.saturating_add(*count as u64);
                self.failure = None;
            }
            Err(error) => self.failure = Some(*error),
        }
    }
}

impl<R: Read> Read for NotingReader<R> {
    ghost remaining = { λ noting. R.remaining noting.reader };

    fn read(&mut self, buf: &mut [u8]) -> io::Result<usize> {
        let read = self.reader.read(buf);
        self.note(&read);
        read
    }
}
