// The lines of a file, read in blocks.
ghost use Rattle.std.specs.Prelude.{◌<◌, ◌≡◌, length};
ghost use Rattle.text.specs.lines.{Within, LineWithin, held, GivesByte, Reads};

use std::io::Read;

// How far a file has been read. The caller lends the file to each call, and the buffer in which the
// last block lies; its bytes from `at` up to `have` are still to be taken.
#[derive(Clone, Copy)]
pub struct Reader {
    at: usize,
    have: usize,
}

// What keeps the rest of a file from being read.
#[derive(Clone, Copy, Debug, thiserror::Error)]
pub enum Fault {
    // A line that does not fit the line buffer.
    #[error("too long, so the file is read no further")]
    Long,
    // A last line with no line feed.
    #[error("no line feed at its end")]
    Cut,
    #[error("a read failed, so the file is read no further")]
    Unread,
}

impl Reader {
    // At the start of a file that is open for reading.
    pub fn new() -> Reader
        ensures { Within result 0 }
    {
        Reader { at: 0, have: 0 }
    }

    // The next byte, from the next block where the last one is used up; none at the end of the file.
    fn next_byte<F: Read>(&mut self, file: &mut F, block: &mut [u8]) -> Result<Option<u8>, Fault>
        requires { Within self.old (length block.old) }
        ensures within { Within self.new (length block.old) }
        ensures byte { 0 < length block.old → GivesByte result (F.remaining file.old) (F.remaining file.new) (held self.old block.old) (held self.new block.new) }
    {
        if self.at == self.have {
            self.have = file.read(block).map_err(|_| Fault::Unread)?;
            self.at = 0;
        }
        if self.at == self.have {
            return Ok(None);
        }
        let byte = block[self.at];
        self.at += 1;
        Ok(Some(byte))
    }

    // The next line, which goes to the start of `line`, and how many bytes it has without its line
    // feed; none at the end of the file.
    pub fn next_line<F: Read>(
        &mut self,
        file: &mut F,
        block: &mut [u8],
        line: &mut [u8],
    ) -> Result<Option<usize>, Fault>
        requires { Within self.old (length block.old) }
        ensures reader { Within self.new (length block.old) }
        ensures within { LineWithin result (length line.old) }
        ensures bytes { 0 < length block.old → Reads result (F.remaining file.old) (F.remaining file.new) (held self.old block.old) (held self.new block.new) line.new }
    {
        for (length, slot) in line.iter_mut().enumerate() {
            match self.next_byte(file, block)? {
                Some(b'\n') => return Ok(Some(length)),
                Some(byte) => *slot = byte,
                None if length == 0 => return Ok(None),
                None => return Err(Fault::Cut),
            }
        }
        Err(Fault::Long)
    }
}
