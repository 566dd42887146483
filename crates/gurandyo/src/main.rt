// The program: reads the two structures and the deck, and prints the best chain of their seeds.
#![tactic(auto)]

ghost use Rattle.std.specs.Prelude.{◌≡◌, ◌≤◌, length};
ghost use Rattle.report.specs.Input.{most_read};
ghost use Rattle.report.specs.Report.{lines_of};
ghost use Rattle.gurandyo.specs.Memory.{Lent, Ran, RoomFor, Starts};

use best::SCRATCH;
use lines::ROOM;
use report::gurandyo_report;
use std::io::{self, Read, Write};

// Reads standard input until the input is full, ends or fails. No contract of `io` says what is read, so how much is asked for here: 8,192 bytes
// at most.
fn read_input(rt: &impl Input, input: &mut [u8]) -> usize
    requires { length input.old ≡ most_read }
    ensures { result ≤ length input.new }
{
    let mut reader = rt.reader();
    let mut end = 0;
    while end < input.len() {
        let n = reader.read(&mut input[end..]).unwrap_or(0);
        if n == 0 {
            break;
        }
        end += n;
    }
    end
}

// Writes the lines of an input to the start of the output, and answers how many bytes they have.
fn put_report(input: &[u8], scratch: &mut [u64], out: &mut [u8]) -> usize
    requires { RoomFor scratch.old out.old }
    ensures { Starts out.new result (lines_of input.now) }
{
    gurandyo_report(input, scratch, out)
}

// Prints bytes. No contract of `io` says what is written, so it is asked for here: they are the lines of the input.
fn print_lines(rt: &impl Print, lines: &[u8], input: &[u8])
    requires { lines.now ≡ lines_of input.now }
{
    let _ = io::writer(rt).write_all(lines);
}

// Prints the lines of what is read, on the lent memory.
fn run(rt: &(impl Input + Print), input: &mut [u8], scratch: &mut [u64], out: &mut [u8])
    requires { Lent input.old scratch.old out.old }
    ensures { Ran input.new out.new }
{
    let n = read_input(rt, input);
    let length = put_report(&input[..n], scratch, out);
    print_lines(rt, &out[..length], &input[..n]);
}

fn main(rt: HostRuntime) {
    let mut input = [0u8; 8192];
    let mut scratch = [0u64; SCRATCH];
    let mut out = [0u8; ROOM];
    run(&rt, &mut input, &mut scratch, &mut out);
}
