// The cases of a file, one after the other: their strings, what was found of each, and the tally of all.
ghost use Rattle.std.specs.Prelude.{◌≡◌, ◌≢◌, ◌+◌, ◌<◌, ◌≤◌, List, ℕ, length, take, IfOk};
ghost use Rattle.program_parts.specs.Front.{IsPrefixLen};
ghost use Rattle.program_parts.specs.Strings.{string_octets, short_string_octets, Comes, Loses};
ghost use Rattle.program_parts.specs.Tallied.{verdict_on, tallied_by};

use crate::Tally;
use crate::input::read_full;
use std::io;
use std::io::Read;

// A proved loop has to end, and nothing says that a file does.
pub const MOST_CASES: u64 = 100000;

// How many cases that differ are named.
const MOST_NAMED: u64 = 10;

#[derive(Clone, Copy, PartialEq, Eq)]
pub enum Verdict {
    Same,
    Differs,
    Ended,
}

// How many octets came to the front of a buffer: all that were asked for, or none.
fn next_octets<R: Read>(input: &mut R, count: usize, buffer: &mut [u8]) -> io::Result<usize>
    ensures ok { IfOk result (λ n. IsPrefixLen n buffer.new) }
    ensures octets { IfOk result (λ n. (s : List ℕ) → length s ≡ count → length s ≤ length buffer.old → Comes (R.remaining input.old) (R.remaining input.new) s s (take n buffer.new)) }
    ensures loses { Loses (R.remaining input.old) (R.remaining input.new) }
    ensures room { length buffer.new ≡ length buffer.old }
{
    if buffer.len() < count {
        return Ok(0);
    }
    let got = read_full(input, &mut buffer[..count])?;
    if got < count {
        return Ok(0);
    }
    Ok(count)
}

// A string after its length in two octets.
pub fn next_string<R: Read>(input: &mut R, buffer: &mut [u8]) -> io::Result<usize>
    ensures ok { IfOk result (λ n. IsPrefixLen n buffer.new) }
    ensures string { IfOk result (λ n. (s : List ℕ) → length s < 65536 → length s ≤ length buffer.old → Comes (R.remaining input.old) (R.remaining input.new) (string_octets s) s (take n buffer.new)) }
    ensures loses { Loses (R.remaining input.old) (R.remaining input.new) }
    ensures room { length buffer.new ≡ length buffer.old }
{
    let mut head = [0u8; 2];
    let got = read_full(input, &mut head)?;
    if got < 2 {
        return Ok(0);
    }
    next_octets(input, usize::from(u16::from_be_bytes(head)), buffer)
}

// A string after its length in one octet. One function over both widths would need a loop over the head, longer than the two.
pub fn next_short_string<R: Read>(input: &mut R, buffer: &mut [u8]) -> io::Result<usize>
    ensures ok { IfOk result (λ n. IsPrefixLen n buffer.new) }
    ensures string { IfOk result (λ n. (s : List ℕ) → length s < 256 → length s ≤ length buffer.old → Comes (R.remaining input.old) (R.remaining input.new) (short_string_octets s) s (take n buffer.new)) }
    ensures loses { Loses (R.remaining input.old) (R.remaining input.new) }
    ensures room { length buffer.new ≡ length buffer.old }
{
    let mut head = [0u8; 1];
    let got = read_full(input, &mut head)?;
    if got < 1 {
        return Ok(0);
    }
    next_octets(input, usize::from(head[0]), buffer)
}

// The verdict on a case: whether what was found equals what is expected.
impl From<bool> for Verdict {
    ghost from_gives = { λ equal verdict. verdict ≡ verdict_on equal };

    #[tactic(auto, unfolding(crate::specs::Tallied::verdict_on))]
    fn from(equal: bool) -> Verdict {
        if equal {
            Verdict::Same
        } else {
            Verdict::Differs
        }
    }
}

// Names a case that differs, where `tally` is that of the cases before it.
pub fn name_case(rt: &impl Print, tally: Tally, verdict: Verdict) -> io::Result<()> {
    if verdict == Verdict::Differs && tally.differ < MOST_NAMED {
        println!(rt; "case {} differs", tally.compared)?;
    }
    Ok(())
}

impl Tally {
    // The tally after a verdict.
    #[tactic(auto, unfolding(crate::specs::Tallied::tallied_by))]
    pub fn told(self, verdict: Verdict) -> Tally
        ensures { result ≡ tallied_by self verdict }
    {
        match verdict {
            Verdict::Same => self.counted(true),
            Verdict::Differs => self.counted(false),
            Verdict::Ended => self,
        }
    }
}

// How many cases may still come after one, where `left` might before it.
pub fn left_after(left: u64, verdict: Verdict) -> u64
    requires { 0 < left }
    ensures less { result < left }
    ensures goes_on { verdict ≢ Verdict.Ended → result + 1 ≡ left }
{
    match verdict {
        Verdict::Same => left - 1,
        Verdict::Differs => left - 1,
        Verdict::Ended => 0,
    }
}

#[cfg(test)]
mod tests {
    use super::*;
    use std::io::{Error, ErrorKind};
    use std::test::Fail;

    // Gives one octet at a time, and fails where no more are left.
    #[derive(Drop)]
    struct Slow<'a> {
        rest: &'a [u8],
    }

    impl Read for Slow<'_> {
        fn read(&mut self, buf: &mut [u8]) -> io::Result<usize> {
            if self.rest.is_empty() {
                return Err(Error::from(ErrorKind::ConnectionReset));
            }
            if buf.is_empty() {
                return Ok(0);
            }
            buf[0] = self.rest[0];
            self.rest = &self.rest[1..];
            Ok(1)
        }
    }

    #[test]
    fn strings_come_one_after_the_other(rt: HostRuntime) -> Result<(), Fail> {
        let mut input = Slow {
            rest: b"\x00\x03abc\x01z\x00\x02y",
        };
        let mut buffer = [0u8; 8];
        let size = next_string(&mut input, &mut buffer)?;
        assert_eq!(rt; &buffer[..size], b"abc".as_slice());
        let size = next_short_string(&mut input, &mut buffer)?;
        assert_eq!(rt; &buffer[..size], b"z".as_slice());
        assert!(rt;
            next_string(&mut input, &mut buffer).is_err(),
            "cut off by an error"
        );
        Ok(())
    }

    #[test]
    fn one_that_is_too_long_is_none(rt: HostRuntime) -> Result<(), Fail> {
        let mut input = Slow {
            rest: b"\x01\x00abc",
        };
        let mut buffer = [0u8; 255];
        assert_eq!(rt; next_string(&mut input, &mut buffer)?, 0);
        Ok(())
    }
}
