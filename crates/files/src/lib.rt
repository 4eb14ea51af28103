// What a program reads and writes: a file, as far as it can be read, and a text, as far as it is taken.
#![tactic(auto)]

ghost use Rattle.std.specs.Prelude.{◌≡◌, take, length, OnOk, IfSome};
ghost use Rattle.std.specs.Io.KnownBytes.{Consumes, Appends};
ghost use Rattle.std.specs.Counts.{IsPrefixLen};

use std::io;
use std::io::{ErrorKind, Read, Write};

// Reads over the front of a slice until it is full, the reader is at its end or a read fails. Says how many bytes came, and the error of the
// read that failed: what came before it is kept. A slice with room for one byte more than the longest file shows a longer one, which is
// refused. A short read, as from a pipe, is not taken for the end, and a read that a signal interrupts is one that failed.
pub fn read_file<R: Read>(reader: &mut R, file: &mut [u8]) -> (usize, io::Result<()>)
    ensures counted { IsPrefixLen result.0 file.new }
    ensures none_lost { Consumes (R.remaining reader.old) (R.remaining reader.new) (take result.0 file.new) }
    ensures whole { OnOk result.1 (IfSome (R.remaining reader.old) (λ bytes. take result.0 file.new ≡ take (length file.old) bytes)) }
{
    let mut done = 0;
    while done < file.len() {
        match reader.read(&mut file[done..]) {
            Ok(0) => return (done, Ok(())),
            Ok(n) => done += n,
            Err(e) => return (done, Err(e)),
        }
    }
    (done, Ok(()))
}

// Writes a text whole, or stops at the first write that takes nothing or fails, when a part may have been written. A write that a signal
// interrupts is one that failed: std's write_all would try it again.
pub fn write_text<W: Write>(writer: &mut W, text: &[u8]) -> io::Result<()>
    ensures { OnOk result (Appends (W.contents writer.old) (W.contents writer.new) text.now) }
{
    let mut taken = 0;
    while taken < text.len() {
        match writer.write(&text[taken..]) {
            Ok(0) => return Err(io::Error::from(ErrorKind::WriteZero)),
            Ok(n) => taken += n,
            Err(e) => return Err(e),
        }
    }
    Ok(())
}

#[cfg(test)]
mod tests {
    use super::*;
    use semantics::MOST_BYTES;
    use std::test::Fail;

    // Gives some bytes one by one, and then fails.
    #[derive(Drop)]
    struct Broken<'a> {
        bytes: &'a [u8],
    }

    impl Read for Broken<'_> {
        fn read(&mut self, buf: &mut [u8]) -> io::Result<usize> {
            if buf.is_empty() {
                return Ok(0);
            }
            let Some((first, rest)) = self.bytes.split_first() else {
                return Err(io::Error::from(ErrorKind::Interrupted));
            };
            buf[0] = *first;
            self.bytes = rest;
            Ok(1)
        }
    }

    // Takes three bytes at a time, as far as it has room, and then fails.
    #[derive(Drop)]
    struct Narrow<'a> {
        taken: &'a mut Vec<u8>,
        room: usize,
    }

    impl Write for Narrow<'_> {
        fn write(&mut self, buf: &[u8]) -> io::Result<usize> {
            if self.room == 0 {
                return Err(io::Error::from(ErrorKind::Interrupted));
            }
            let n = self.room.min(buf.len()).min(3);
            self.taken.extend_from_slice(&buf[..n])?;
            self.room -= n;
            Ok(n)
        }

        fn flush(&mut self) -> io::Result<()> {
            Ok(())
        }
    }

    #[test]
    fn reads_to_the_end(rt: HostRuntime) -> Result<(), Fail> {
        let mut file = [0u8; MOST_BYTES + 1];
        let (n, read) = read_file(&mut b"TB\x03".as_slice(), &mut file);
        read?;
        assert_eq!(rt; &file[..n], b"TB\x03".as_slice());
        Ok(())
    }

    #[test]
    fn stops_a_byte_past_the_longest_file(rt: HostRuntime) -> Result<(), Fail> {
        let mut file = [0u8; MOST_BYTES + 1];
        let (n, read) = read_file(&mut io::repeat(0), &mut file);
        read?;
        assert_eq!(rt; n, MOST_BYTES + 1);
        Ok(())
    }

    #[test]
    fn keeps_what_came_before_a_failed_read(rt: HostRuntime) {
        let mut file = [0u8; MOST_BYTES + 1];
        let (n, read) = read_file(&mut Broken { bytes: b"TB\x03" }, &mut file);
        assert!(rt; read.is_err());
        assert_eq!(rt; &file[..n], b"TB\x03".as_slice());
    }

    #[test]
    fn goes_on_after_small_pieces(rt: HostRuntime) -> Result<(), Fail> {
        let mut file = [0u8; MOST_BYTES + 1];
        let mut pieces = Broken { bytes: b"TB" }.take(2).chain(b"\x03CL".as_slice());
        let (n, read) = read_file(&mut pieces, &mut file);
        read?;
        assert_eq!(rt; &file[..n], b"TB\x03CL".as_slice());
        Ok(())
    }

    #[test]
    fn writes_a_text_whole(rt: HostRuntime) -> Result<(), Fail> {
        let mut taken = Vec::new(rt.alloc());
        write_text(
            &mut Narrow {
                taken: &mut taken,
                room: 100,
            },
            b"rows 0\n",
        )?;
        assert_eq!(rt; taken.as_slice(), b"rows 0\n".as_slice());
        Ok(())
    }

    #[test]
    fn stops_at_a_failed_write(rt: HostRuntime) {
        let mut taken = Vec::new(rt.alloc());
        let written = write_text(
            &mut Narrow {
                taken: &mut taken,
                room: 5,
            },
            b"rows 0\n",
        );
        assert!(rt; written.is_err());
        assert_eq!(rt; taken.as_slice(), b"rows ".as_slice());
    }
}
