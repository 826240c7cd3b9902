// Text to standard output, through a buffer.
use std::alloc::Global;
use std::io::{BufWriter, Stdout, Write};
use std::{fmt, io};

// Keeps the error that a writer of text cannot tell.
#[derive(Drop)]
pub struct Printer {
    out: BufWriter<Stdout>,
    error: Option<io::Error>,
}

impl Printer {
    pub fn new(alloc: Global, out: Stdout) -> io::Result<Printer> {
        Ok(Printer {
            out: BufWriter::new(alloc, out)?,
            error: None,
        })
    }

    // Writes what the buffer still holds; an earlier error comes first. The match moves one of two things out.
    pub fn finish(self) -> io::Result<()> {
        let Printer { mut out, error } = self;
        match error {
            Some(error) => Err(error),
            None => out.flush(),
        }
    }
}

impl fmt::Write for Printer {
    fn write_str(&mut self, text: &str) -> fmt::Result {
        self.out.write_all(text.as_bytes()).map_err(|error| {
            self.error = Some(error);
            fmt::Error
        })
    }
}
