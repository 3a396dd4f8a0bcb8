// The program: reads one book from standard input and prints the planner's sheet, or the line of its refusal.
#![tactic(auto)]

ghost use Rattle.std.specs.Prelude.{◌≤◌, length, IfOk};

use std::io;
use std::io::{Print, Read};

// Reads until buf is full or the input ends, in as many reads as it takes, and answers how many bytes there are.
fn take_input<R: Read>(input: &mut R, buf: &mut [u8]) -> io::Result<usize>
    ensures { IfOk result (λ count. count ≤ length buf.old) }
{
    let mut count: usize = 0;
    // No `for`: a read takes as many bytes as it likes.
    while count < buf.len() {
        let more = input.read(&mut buf[count..])?;
        if more == 0 {
            break;
        }
        count += more;
    }
    Ok(count)
}

// A read that fails is told on standard error alone; the sheet or the refusal's line goes out in one piece.
fn main(rt: HostRuntime) {
    let mut input = [0u8; 4096];
    let Ok(count) = take_input(&mut rt.stdin(), &mut input) else {
        let _ = rt
            .stderr()
            .write_all(b"loadplan: standard input cannot be read\n");
        return;
    };
    let printed = program::output(&input[..count]);
    let bytes = printed.bytes;
    if rt.write_all(&bytes[..printed.length]).is_err() {
        let _ = rt
            .stderr()
            .write_all(b"loadplan: standard output cannot be written\n");
    }
}
