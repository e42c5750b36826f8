use std::io::{self, ErrorKind, Read};

/// Standard input that gives these bytes or errors, one a read. After them it ends, or would block for ever.
#[derive(Clone, Copy)]
pub struct ScriptedInput {
    pub reads: &'static [Result<&'static [u8], ErrorKind>],
    pub ends: bool,
}

impl Read for ScriptedInput {
    fn read(&mut self, buf: &mut [u8]) -> io::Result<usize> {
        let Some(&next) = self.reads.first() else {
            if self.ends {
                return Ok(0);
            }
            return Err(ErrorKind::WouldBlock.into());
        };
        self.reads = &self.reads[1..];
        let bytes = next?;
        let count = buf.len().min(bytes.len());
        buf[..count].copy_from_slice(&bytes[..count]);
        Ok(count)
    }
}
