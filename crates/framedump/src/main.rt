// Prints what a capture of radio traffic says: standard input has a frame a line, in lower-case hexadecimal.
#![tactic(auto)]

use capture::describe;
use std::io;
use std::io::{BufRead, BufReader, BufWriter, Write};

fn main(rt: HostRuntime) -> io::Result<()> {
    let mut input = BufReader::new(rt.alloc(), rt.stdin())?;
    let mut output = BufWriter::new(rt.alloc(), rt.stdout())?;
    // One vector for all lines: the library's `split` makes one for each, and takes twice the memory where lines are long.
    let mut line = Vec::new(rt.alloc());
    for n in 1..u64::MAX {
        line.clear();
        if input.read_until(b'\n', &mut line)? == 0 {
            break;
        }
        let text = describe(rt.alloc(), n, line.as_slice())?;
        output.write_all(text.as_bytes())?;
    }
    output.flush()
}
