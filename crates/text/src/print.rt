// A writer's buffer on the stack, since a `BufWriter` has its own on the heap.
ghost use Rattle.std.specs.Prelude.{◌≡◌, ◌-◌, ◌≤◌, min, [], length, take, IfOk, OnOk};
ghost use Rattle.std.specs.Io.{WritesAtMost};
ghost use Rattle.std.specs.Io.KnownBytes.{Keeps, Appends, WriteAppends};

use std::io;
use std::io::Write;

// The length of the buffer.
pub const SIZE: usize = 4096;

// What a program prints, gathered: a full buffer is written out when the next byte comes, and the rest at `flush`. An error leaves open
// how much of the buffer was written, and a drop writes nothing.
#[derive(Drop)]
pub struct Out<W: Write> {
    to: W,
    bytes: [u8; SIZE],
    used: usize,
    ghost within: { used ≤ 4096 },
}

impl<W: Write> Out<W> {
    ghost use Rattle.text.specs.Out.{gathered, held};

    pub fn new(to: W) -> Out<W>
        ensures empty { gathered result ≡ [] }
        ensures same { Keeps (W.contents to) (held result) }
    {
        Out {
            to,
            bytes: [0; SIZE],
            used: 0,
        }
    }

    // Takes as many bytes as there is room for, and hands back how many.
    fn gather(&mut self, bytes: &[u8]) -> usize
        ensures count { result ≡ min (length bytes.now) (4096 - self.old.used) }
        ensures held { Appends (held self.old) (held self.new) (take result bytes.now) }
    {
        let count = bytes.len().min(SIZE - self.used);
        let end = self.used + count;
        self.bytes[self.used..end].copy_from_slice(&bytes[..count]);
        self.used = end;
        count
    }

    // Writes the buffer out, in one call.
    fn write_out(&mut self) -> io::Result<()>
        ensures empty { OnOk result (self.new.used ≡ 0) }
        ensures same { OnOk result (Keeps (held self.old) (held self.new)) }
    {
        self.to.write_all(&self.bytes[..self.used])?;
        self.used = 0;
        Ok(())
    }
}

impl<W: Write> Write for Out<W> {
    ghost use Rattle.text.specs.Out.{gathered, held};

    fn write(&mut self, buf: &[u8]) -> io::Result<usize>
        ensures bound { WritesAtMost result buf.now }
        ensures bytes { WriteAppends None None result buf.now }
        ensures ok { IfOk result (λ n. Appends (held self.old) (held self.new) (take n buf.now)) }
        ensures progress { IfOk result (λ n. n ≡ 0 → length buf.now ≡ 0) }
    {
        if self.used == SIZE && !buf.is_empty() {
            self.write_out()?;
        }
        Ok(self.gather(buf))
    }

    // Passes each error on, where the provided method would write again after a signal. The loop goes by what each write takes.
    fn write_all(&mut self, buf: &[u8]) -> io::Result<()>
        ensures bytes { OnOk result (Appends None None buf.now) }
        ensures ok { OnOk result (Appends (held self.old) (held self.new) buf.now) }
    {
        let mut done = 0;
        while done < buf.len() {
            done += self.write(&buf[done..])?;
        }
        Ok(())
    }

    fn flush(&mut self) -> io::Result<()>
        ensures bytes { Keeps None None }
        ensures empty { OnOk result (gathered self.new ≡ []) }
        ensures same { OnOk result (Keeps (held self.old) (held self.new)) }
    {
        self.write_out()?;
        self.to.flush()
    }
}
