//! Readers and writers: with faults, in pieces, and without memory.
use arrayvec::ArrayVec;
use std::io::{Error, ErrorKind, Read, Result, Write};

/// Can't be read.
#[derive(Drop)]
pub struct Unreadable;

impl Read for Unreadable {
    fn read(&mut self, _octets: &mut [u8]) -> Result<usize> {
        Err(Error::from(ErrorKind::ConnectionReset))
    }
}

/// Can't be written.
#[derive(Drop)]
pub struct Unwritable;

impl Write for Unwritable {
    fn write(&mut self, _octets: &[u8]) -> Result<usize> {
        Err(Error::from(ErrorKind::StorageFull))
    }

    fn flush(&mut self) -> Result<()> {
        Ok(())
    }
}

/// Takes one octet at a time, this number in total, and then none.
#[derive(Drop)]
pub struct FullAfter {
    pub taken: Vec<u8>,
    pub room: usize,
}

impl Write for FullAfter {
    fn write(&mut self, octets: &[u8]) -> Result<usize> {
        match octets.first() {
            Some(octet) if self.room > 0 => {
                self.room -= 1;
                self.taken.push(*octet)?;
                Ok(1)
            }
            _ => Ok(0),
        }
    }

    fn flush(&mut self) -> Result<()> {
        Ok(())
    }
}

/// Takes all octets and can't be flushed.
#[derive(Drop)]
pub struct Unflushed;

impl Write for Unflushed {
    fn write(&mut self, octets: &[u8]) -> Result<usize> {
        Ok(octets.len())
    }

    fn flush(&mut self) -> Result<()> {
        Err(Error::from(ErrorKind::BrokenPipe))
    }
}

/// Is interrupted at its first read or write; then nothing is left to read, and all is taken.
#[derive(Drop)]
pub struct Interrupted {
    pub was_interrupted: bool,
}

impl Read for Interrupted {
    fn read(&mut self, _octets: &mut [u8]) -> Result<usize> {
        if self.was_interrupted {
            return Ok(0);
        }
        self.was_interrupted = true;
        Err(Error::from(ErrorKind::Interrupted))
    }
}

impl Write for Interrupted {
    fn write(&mut self, octets: &[u8]) -> Result<usize> {
        if self.was_interrupted {
            return Ok(octets.len());
        }
        self.was_interrupted = true;
        Err(Error::from(ErrorKind::Interrupted))
    }

    fn flush(&mut self) -> Result<()> {
        Ok(())
    }
}

/// Gives, or takes, at most this number of octets at a time.
#[derive(Drop)]
pub struct InPieces<T>(pub T, pub usize);

impl<R: Read> Read for InPieces<R> {
    fn read(&mut self, octets: &mut [u8]) -> Result<usize> {
        let most = octets.len().min(self.1);
        self.0.read(&mut octets[..most])
    }
}

impl<W: Write> Write for InPieces<W> {
    fn write(&mut self, octets: &[u8]) -> Result<usize> {
        let most = octets.len().min(self.1);
        self.0.write(&octets[..most])
    }

    fn flush(&mut self) -> Result<()> {
        self.0.flush()
    }
}

/// Fails once this number of calls have gone well, and at each later one.
#[derive(Drop)]
pub struct FailsAfter<T> {
    pub inner: T,
    pub allowed: u64,
}

impl<T> FailsAfter<T> {
    fn spend(&mut self) -> Result<()> {
        if self.allowed == 0 {
            return Err(Error::from(ErrorKind::ConnectionReset));
        }
        self.allowed -= 1;
        Ok(())
    }
}

impl<R: Read> Read for FailsAfter<R> {
    fn read(&mut self, octets: &mut [u8]) -> Result<usize> {
        self.spend()?;
        self.inner.read(octets)
    }
}

impl<W: Write> Write for FailsAfter<W> {
    fn write(&mut self, octets: &[u8]) -> Result<usize> {
        self.spend()?;
        self.inner.write(octets)
    }

    fn flush(&mut self) -> Result<()> {
        self.inner.flush()
    }
}

/// Takes up to 512 octets, and no memory.
#[derive(Drop)]
pub struct Page {
    pub octets: ArrayVec<u8, 512>,
}

impl Write for Page {
    fn write(&mut self, octets: &[u8]) -> Result<usize> {
        match self.octets.try_extend_from_slice(octets) {
            Ok(()) => Ok(octets.len()),
            Err(_) => Err(Error::from(ErrorKind::StorageFull)),
        }
    }

    fn flush(&mut self) -> Result<()> {
        Ok(())
    }
}
