// Lists the messages of messages.bin, each after its length in two octets, and what the record of one that was read is written as. Each is read once more for
// every octet of the first argument, and written once more for every octet of the second: by what a run with one octet more costs, bench/ tells what a call costs.
#![tactic(auto)]

ghost use Rattle.std.specs.Prelude.{◌≡◌, ◌≤◌, length, take};
ghost use Rattle.program_parts.specs.Front.{IsPrefixLen};
ghost use Rattle.base.specs.inner.Put.{Put};
ghost use Rattle.tcap.specs.Reading.{reading};
ghost use Rattle.writing.specs.Writing.{Writes};
ghost use Rattle.program_readings.specs.Rewritten.{rewritten, line_of};

use base::{put_octet, put_part};
use digits::put_hex;
use program_parts::cases::{MOST_CASES, next_string};
use program_parts::list_into;
use read::read;
use std::fs::File;
use std::io;
use std::io::Read;
use std::rt::{Env, Files};
use tcap::{Record, Refusal};
use writer::write;
use writing::WriteFault;

// How often a message is read, and what was read written, beside the first time.
#[derive(Clone, Copy)]
struct More {
    reads: usize,
    writes: usize,
}

// A message, read so many times more.
fn read_again(message: &[u8], more: usize) -> Result<Record, Refusal>
    ensures { result ≡ reading message.now }
{
    let mut found = read(message);
    for _ in 0..more {
        found = read(message);
    }
    found
}

// A record, written so many times more: over what was written before, it leaves the same.
fn write_again(
    held: Record,
    material: &[u8],
    out: &mut [u8],
    more: usize,
) -> Result<usize, WriteFault>
    ensures { Writes held material.now out.old result out.new }
{
    let mut written = write(held, material, out);
    for _ in 0..more {
        written = write(held, material, out);
    }
    written
}

// How many octets at the front of the buffer are what a message is written as: none where it was refused.
#[tactic(auto, unfolding(crate::specs::Rewritten::rewritten))]
fn rewrite(message: &[u8], found: Result<Record, Refusal>, out: &mut [u8], more: usize) -> usize
    requires found_value { found ≡ reading message.now }
    requires out_len { length out.old ≡ 255 }
    ensures prefix_len { IsPrefixLen result out.new }
    ensures out_after { take result out.new ≡ rewritten found message.now }
{
    match found {
        Ok(held) => write_again(held, message, out, more).unwrap_or(0),
        Err(_) => 0,
    }
}

fn put_line(out: &mut [u8], octets: &[u8]) -> usize
    ensures { Put out.old 0 (line_of octets.now) result out.new }
{
    let a = put_part(out, 0, b"written ");
    let b = put_hex(out, a, octets);
    put_octet(out, b, b'\n')
}

fn print_written(rt: &impl Print, octets: &[u8]) -> io::Result<()>
    requires { length octets.now ≤ 255 }
{
    let mut text = [0u8; 4096];
    let size = put_line(&mut text, octets);
    rt.write_all(&text[..size])
}

// The next message, listed and written: whether there was one.
fn list_next<R: Read>(rt: &impl Print, input: &mut R, more: More) -> io::Result<bool> {
    let mut buffer = [0u8; 512];
    let size = next_string(input, &mut buffer)?;
    if size == 0 {
        return Ok(false);
    }
    let message = &buffer[..size];
    let found = read_again(message, more.reads);
    let mut text = [0u8; 4096];
    let length = list_into(message, found, &mut text);
    rt.write_all(&text[..length])?;
    let mut out = [0u8; 255];
    let written = rewrite(message, found, &mut out, more.writes);
    if written > 0 {
        print_written(rt, &out[..written])?;
    }
    Ok(true)
}

fn list_all<R: Read>(rt: &impl Print, input: &mut R, more: More) -> io::Result<()> {
    for _ in 0..MOST_CASES {
        if !list_next(rt, input, more)? {
            break;
        }
    }
    Ok(())
}

// How many octets an argument has: none where it is missing, or longer than 64.
fn argument_length(rt: &impl Env, i: usize) -> usize {
    let mut word = [0u8; 64];
    rt.arg(i, &mut word).unwrap_or(0)
}

// A file that cannot be opened is told on standard error.
fn list_file<R: Env + Files + Print + Eprint>(rt: &R, name: &str) -> io::Result<()> {
    let more = More {
        reads: argument_length(rt, 1),
        writes: argument_length(rt, 2),
    };
    match File::open(rt, name) {
        Ok(mut file) => list_all(rt, &mut file, more),
        Err(error) => eprintln!(rt; "{name}: {error}"),
    }
}

fn main(rt: HostRuntime) -> io::Result<()> {
    list_file(&rt, "messages.bin")
}
