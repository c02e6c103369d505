//! What the programs share: a sheet's text is read from an input, and one text is printed for it.

#![tactic(auto)]

ghost use Rattle.std.specs.Prelude.{◌≤◌, ◌<◌, length, take, IfOk, Ok};
ghost use Rattle.std.specs.Io.KnownBytes.{Consumes, IsAtEnd};
ghost use Rattle.console.specs.Reading.{CutAt, max_read};

use sheet::reader::MAX_SHEET;
use std::alloc::{AllocError, Global};
use std::io;
use std::io::Read;

/// One byte more than a sheet may have, so that a longer input is told from the longest sheet.
const ROOM: usize = MAX_SHEET + 1;

/// Reads until the input ends or the buffer is full, and tells how many bytes were read to its start.
pub fn fill<I: Read>(input: &mut I, buffer: &mut [u8]) -> io::Result<usize>
    ensures bound { IfOk result (λ n. n ≤ length buffer.new) }
    ensures bytes { IfOk result (λ n. Consumes (I.remaining input.old) (I.remaining input.new) (take n buffer.new)) }
    ensures end { IfOk result (λ n. n < length buffer.new → IsAtEnd (I.remaining input.new)) }
{
    // the library fills a whole buffer or fails, or reads into one that grows
    let mut filled = 0;
    while filled < buffer.len() {
        let got = input.read(&mut buffer[filled..])?;
        if got == 0 {
            break;
        }
        filled += got;
    }
    Ok(filled)
}

/// The reply to the bytes of an input. What follows the first `ROOM` of them does not change it.
pub fn answer<I: Read, F: FnOnce(Global, &[u8]) -> Result<String, AllocError>>(
    reply: F,
    input: &mut I,
    heap: Global,
) -> anyhow::Result<String>
    requires { F.IsAlwaysCallable reply }
    ensures { IfOk result (λ text. (given : _) × CutAt max_read (I.remaining input.old) given.now × F.post reply heap given (Ok text)) }
{
    // fixed memory: a longer input is refused, and not held
    let mut buffer = [0u8; ROOM];
    let filled = fill(input, &mut buffer)?;
    Ok(reply(heap, &buffer[..filled])?)
}

/// Prints the reply to standard input on standard output.
// No `ensures`: of what standard input gives and standard output takes, the library's contracts say nothing.
pub fn run<F: FnOnce(Global, &[u8]) -> Result<String, AllocError>>(
    reply: F,
    rt: &HostRuntime,
) -> anyhow::Result<()>
    requires { F.IsAlwaysCallable reply }
{
    let text = answer(reply, &mut rt.stdin(), rt.alloc())?;
    rt.print(text.as_str())?;
    Ok(())
}

#[cfg(test)]
mod tests {
    use super::*;
    use std::test::Fail;

    // the whole of a short input is read, and of a long one as much as there is room for
    #[test]
    fn fills(rt: HostRuntime) -> Result<(), Fail> {
        let mut buffer = [0u8; 8];
        let mut input: &[u8] = b"wall";
        assert_eq!(rt; fill(&mut input, &mut buffer)?, 4);
        assert_eq!(rt; buffer, *b"wall\0\0\0\0");
        let mut input: &[u8] = b"wall #.#.";
        assert_eq!(rt; fill(&mut input, &mut buffer)?, 8);
        assert_eq!(rt; buffer, *b"wall #.#");
        Ok(())
    }

    // Gives one byte a read, and fails where it has given as many as `cut`, if that is a number.
    #[derive(Drop)]
    struct Sips<'a> {
        text: &'a [u8],
        at: usize,
        cut: Option<usize>,
    }

    impl<'a> Read for Sips<'a> {
        fn read(&mut self, buf: &mut [u8]) -> io::Result<usize> {
            if self.cut == Some(self.at) {
                return Err(io::Error::from(io::ErrorKind::BrokenPipe));
            }
            match (self.text.get(self.at), buf.first_mut()) {
                (Some(byte), Some(place)) => {
                    *place = *byte;
                    self.at = self.at.saturating_add(1);
                    Ok(1)
                }
                _ => Ok(0),
            }
        }
    }

    fn sipped(text: &[u8], cut: Option<usize>) -> Sips<'_> {
        Sips { text, at: 0, cut }
    }

    // reads go on until the input ends or the buffer is full, however little each gives
    #[test]
    fn fills_by_sips(rt: HostRuntime) -> Result<(), Fail> {
        let mut buffer = [0u8; 8];
        assert_eq!(rt; fill(&mut sipped(b"wall", None), &mut buffer)?, 4);
        assert_eq!(rt; buffer, *b"wall\0\0\0\0");
        assert_eq!(rt; fill(&mut sipped(b"wall #.#.", None), &mut buffer)?, 8);
        assert_eq!(rt; buffer, *b"wall #.#");
        Ok(())
    }

    // a read that fails in mid-stream is an error, and not a shorter text
    #[test]
    fn tells_a_failed_read(rt: HostRuntime) {
        let mut buffer = [0u8; 8];
        assert!(rt; fill(&mut sipped(b"wall #.#", Some(0)), &mut buffer).is_err());
        assert!(rt; fill(&mut sipped(b"wall #.#", Some(3)), &mut buffer).is_err());
        assert!(rt; fill(&mut sipped(b"wall #.#", Some(8)), &mut buffer).is_ok());
    }
}
