//! The files of a form, and standard output, through buffers.
ghost use Rattle.std.specs.Prelude.{◌≡◌, None, IfErr, IfOk};
ghost use Rattle.rasta_pcap.specs.Fault.{no_memory, write_failed};

use rasta_pcap::{BUFFER, Buffered, Counted};
use rasta_pdu::Fault;
use std::fs::File;
use std::io;
use std::io::{BufWriter, Printer, Read, Write};
use std::rt::Files;

/// A file that is opened when it is first read: one that can't be opened is one that can't be read.
#[derive(Drop)]
pub struct Unopened<'a, R: Files> {
    rt: &'a R,
    path: &'a str,
    file: Option<R::File>,
}

impl<'a, R: Files> Read for Unopened<'a, R> {
    ghost remaining = { λ f. None };

    fn read(&mut self, buf: &mut [u8]) -> io::Result<usize> {
        match &mut self.file {
            Some(file) => file.read(buf),
            None => {
                let mut file = File::open(self.rt, self.path)?;
                let count = file.read(buf);
                self.file = Some(file);
                count
            }
        }
    }
}

/// The file at a path, which counts the reads that fail.
pub fn file_at<'a, R: Files>(rt: &'a R, path: &'a str) -> Counted<Unopened<'a, R>> {
    Counted::new(Unopened {
        rt,
        path,
        file: None,
    })
}

/// The capture at a path, through a buffer: its records are read one by one.
pub fn capture_at<'a, R: AllocGlobal + Files>(
    rt: &'a R,
    path: &'a str,
) -> Result<Buffered<Counted<Unopened<'a, R>>>, Fault>
    ensures { IfErr result (λ f. f ≡ no_memory) }
{
    Buffered::new(rt.alloc(), file_at(rt, path), BUFFER)
}

/// Standard output, through a buffer.
pub fn output<R: AllocGlobal + Print>(rt: &R) -> Result<Counted<BufWriter<Printer<'_, R>>>, Fault>
    ensures { IfErr result (λ f. f ≡ no_memory) }
{
    match BufWriter::with_capacity(rt.alloc(), BUFFER, io::writer(rt)) {
        Ok(output) => Ok(Counted::new(output)),
        Err(_) => Err(Fault::no_memory()),
    }
}

/// The status of a text, once all of it is out.
pub fn finish<W: Write + Drop>(writer: Counted<W>, status: u8) -> Result<u8, Fault>
    ensures ok { IfOk result (λ answer. answer ≡ status) }
    ensures err { IfErr result (λ f. f ≡ write_failed) }
{
    match writer.into_inner().flush() {
        Ok(()) => Ok(status),
        Err(_) => Err(Fault::at(Fault::WRITE_FAILED, 0)),
    }
}
