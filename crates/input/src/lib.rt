// Input that is read whole or not at all: a read that fails is no end of input. What a file or a pipe gives no contract can say; of a reader whose
// bytes are known it says that the input is those.
#![tactic(auto)]

ghost use Rattle.input.specs.Within.{Within, TakesWhole};

use std::io;
use std::io::Read;

// Reads until the bytes lent are full, the input ends or a read fails, and answers how many bytes were read. A read that a signal interrupts has
// failed.
pub fn read_all<R: Read>(reader: &mut R, buf: &mut [u8]) -> io::Result<usize>
    ensures within { Within buf.new result }
    ensures known { TakesWhole (R.remaining reader.old) (R.remaining reader.new) buf.new result }
{
    let mut done = 0;
    while done < buf.len() {
        let more = reader.read(&mut buf[done..])?;
        if more == 0 {
            return Ok(done);
        }
        done += more;
    }
    Ok(done)
}
