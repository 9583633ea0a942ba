// Answers as text, put behind what is written already.
use std::io::Write;
use std::{fmt, io};

// So many equal bytes in a row are shown, and the rest is counted.
const SHOWN: usize = 8;

// Every byte; of more than eight that are the same, how many more there are.
#[derive(Clone, Copy)]
struct Hex<'a>(&'a [u8]);

impl fmt::Display for Hex<'_> {
    fn fmt<W: fmt::Write>(&self, f: &mut fmt::Formatter<W>) -> fmt::Result {
        f.write_str(" x")?;
        for run in self.0.chunk_by(|a, b| a == b) {
            write!(f, "{}", Run(run))?;
        }
        Ok(())
    }
}

// Bytes that are the same.
#[derive(Clone, Copy)]
struct Run<'a>(&'a [u8]);

impl fmt::Display for Run<'_> {
    fn fmt<W: fmt::Write>(&self, f: &mut fmt::Formatter<W>) -> fmt::Result {
        for byte in self.0.iter().take(SHOWN) {
            write!(f, "{byte:02x}")?;
        }
        let more = self.0.len().saturating_sub(SHOWN);
        if 0 < more {
            write!(f, " *{more} x")?;
        }
        Ok(())
    }
}

pub fn bytes(to: &mut Vec<u8>, s: &[u8]) -> io::Result<()> {
    write!(to, "{}", Hex(s))
}

pub fn numbers<T: fmt::Display>(to: &mut Vec<u8>, list: &[T]) -> io::Result<()> {
    for number in list {
        write!(to, " {number}")?;
    }
    Ok(())
}
