use std::io::{self, Read};

/// Standard input of a session at a terminal: before its first read it tells a person that the lexicon is loaded.
#[derive(Drop)]
pub struct ReadyReader<'a, E, R> {
    printer: &'a E,
    reader: R,
    is_told: bool,
}

impl<'a, E, R> ReadyReader<'a, E, R> {
    /// The reader, with this to be told, or with nothing where `is_told` says so.
    pub fn new(printer: &'a E, reader: R, is_told: bool) -> ReadyReader<'a, E, R> {
        ReadyReader {
            printer,
            reader,
            is_told,
        }
    }
}

impl<'a, E: Eprint, R: Read> Read for ReadyReader<'a, E, R> {
    fn read(&mut self, buf: &mut [u8]) -> io::Result<usize> {
        if !self.is_told {
            self.is_told = true;
            let _ = eprintln!(self.printer;
                "sandhi: ready for the lines of a session; quit ends it"
            );
        }
        self.reader.read(buf)
    }
}
