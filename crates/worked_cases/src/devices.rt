//! Readers and writers that fail, and readers that give a little at a time.
use std::io::{self, BufRead, ErrorKind, Read, Write};

/// A writer that takes so many bytes, two at a time at most, and then fails.
#[derive(Drop)]
pub(crate) struct Short {
    pub(crate) taken: Vec<u8>,
    pub(crate) room: usize,
}

impl Write for Short {
    fn write(&mut self, buf: &[u8]) -> io::Result<usize> {
        let taken = buf.len().min(self.room).min(2);
        if taken == 0 {
            return Err(io::Error::from(ErrorKind::StorageFull));
        }
        self.taken.extend_from_slice(&buf[..taken])?;
        self.room -= taken;
        Ok(taken)
    }

    fn flush(&mut self) -> io::Result<()> {
        Ok(())
    }
}

/// A reader that gives so many of its bytes, so many at a time at most, and then fails.
#[derive(Drop)]
pub(crate) struct Broken<'a> {
    pub(crate) bytes: &'a [u8],
    pub(crate) left: usize,
    pub(crate) shown: usize,
}

impl Read for Broken<'_> {
    fn read(&mut self, _buf: &mut [u8]) -> io::Result<usize> {
        Err(io::Error::from(ErrorKind::Unsupported))
    }
}

impl BufRead for Broken<'_> {
    fn fill_buf(&mut self) -> io::Result<&[u8]> {
        if self.left == 0 {
            return Err(io::Error::from(ErrorKind::ConnectionReset));
        }
        let shown = self.shown.min(self.left).min(self.bytes.len());
        Ok(&self.bytes[..shown])
    }

    fn consume(&mut self, amount: usize) {
        if amount <= self.bytes.len() && amount <= self.left {
            self.bytes = &self.bytes[amount..];
            self.left -= amount;
        }
    }
}
