// Reads a message from standard input, and writes its listing.
#![tactic(auto)]

use program_parts::input::read_full;
use program_parts::list_into;
use read::read;
use std::io;

fn list_input<R: Input + Print>(rt: &R) -> io::Result<()> {
    // One octet more than a message may have: longer input is answered like this much of it.
    let mut input = [0u8; 256];
    let count = read_full(&mut rt.reader(), &mut input)?;
    let message = &input[..count];
    let mut text = [0u8; 4096];
    let size = list_into(message, read(message), &mut text);
    rt.write_all(&text[..size])
}

fn main(rt: HostRuntime) -> io::Result<()> {
    list_input(&rt)
}
