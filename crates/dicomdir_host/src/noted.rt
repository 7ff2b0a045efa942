use crate::last_refusal::LastRefusal;
use std::io::{self, ErrorKind, Read};

/// A reader whose failures are remembered. A read that works leaves what is remembered.
#[derive(Drop)]
pub struct Noted<'a, T: Drop> {
    device: T,
    last: &'a LastRefusal,
}

impl<'a, T: Drop> Noted<'a, T> {
    pub(crate) fn new(device: T, last: &'a LastRefusal) -> Self {
        Noted { device, last }
    }

    pub(crate) fn device(&self) -> &T {
        &self.device
    }
}

impl<T: Read + Drop> Read for Noted<'_, T> {
    ghost remaining = { λ s. T.remaining s.device };

    fn read(&mut self, buf: &mut [u8]) -> io::Result<usize> {
        let done = self.device.read(buf);
        match &done {
            Err(error) if error.kind() != ErrorKind::Interrupted => self.last.remember(&done),
            _ => {}
        }
        done
    }
}
