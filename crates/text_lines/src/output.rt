// Output that may fail under a program, which then goes on: what cannot be written is left out, and what comes behind
// it is tried all the same.
ghost use Rattle.std.specs.Prelude.{IsOk};
ghost use Rattle.std.specs.Io.{WritesAtMost};

use std::io::{self, Write};

#[derive(Drop)]
pub struct Output<W> {
    pub to: W,
}

impl<W: Write> Write for Output<W> {
    fn write(&mut self, buf: &[u8]) -> io::Result<usize>
        ensures goes_on { IsOk result }
        ensures bound { WritesAtMost result buf.now }
    {
        match self.to.write(buf) {
            Ok(n) => Ok(n),
            Err(_) => Ok(buf.len()),
        }
    }

    fn flush(&mut self) -> io::Result<()>
        ensures goes_on { IsOk result }
    {
        let _ = self.to.flush();
        Ok(())
    }

    fn write_all(&mut self, buf: &[u8]) -> io::Result<()>
        ensures goes_on { IsOk result }
    {
        let _ = self.to.write_all(buf);
        Ok(())
    }
}
