//! The test program: runs the cases of its input on the library, and says of each whether all its calls answered as they must.
#![tactic(auto)]

mod groups;
mod script;
mod verbs;

use std::io::Read;
use test_words::plain::part;

// Reads standard input until the input is full, ends or fails, and answers how many bytes were read.
fn read_full(rt: &impl Input, input: &mut [u8]) -> usize {
    let mut reader = rt.reader();
    let mut end = 0;
    while end < input.len() {
        let n = reader.read(&mut input[end..]).unwrap_or(0);
        if n == 0 {
            break;
        }
        end += n;
    }
    end
}

fn run(rt: &(impl Input + Print), input: &mut [u8]) {
    let n = read_full(rt, input);
    script::run(rt, part(input, 0, n));
}

fn main(rt: HostRuntime) {
    let mut input = [0u8; 131072];
    run(&rt, &mut input);
}
