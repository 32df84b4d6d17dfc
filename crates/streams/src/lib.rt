// Standard input as the programs read it, and what they say of a stream that fails.
#![tactic(auto)]

ghost use Rattle.std.specs.Prelude.{◌≡◌, true, false, ◌≤◌, length, take, IsSome, IsNone};
ghost use Rattle.std.specs.Io.KnownBytes.{Consumes, IsAtEnd};

use std::alloc::{AllocError, Global};
use std::io;
use std::io::Read;

// How many bytes in front of the buffer count as the input: none where a read failed, wherever in the input; else all that fit, unless the
// input ended before. A failed read leaves its reason.
#[derive(Drop)]
pub struct Input {
    pub count: usize,
    pub failure: Option<io::Error>,
    pub ended: bool,
}

// Reads until the input ends, the buffer is full or a read fails. A read that a signal interrupts counts as failed.
pub fn read_input<R: Read>(reader: &mut R, buffer: &mut [u8]) -> Input
    ensures within { result.count ≤ length buffer.new }
    ensures failed { IsSome result.failure → result.count ≡ 0 }
    ensures full { IsNone result.failure → result.ended ≡ false → result.count ≡ length buffer.new }
    ensures bytes { IsNone result.failure → Consumes (R.remaining reader.old) (R.remaining reader.new) (take result.count buffer.new) }
    ensures end { result.ended ≡ true → IsAtEnd (R.remaining reader.new) }
{
    let mut done = 0;
    while done < buffer.len() {
        match reader.read(&mut buffer[done..]) {
            Ok(0) => {
                return Input {
                    count: done,
                    failure: None,
                    ended: true,
                };
            }
            Ok(more) => done += more,
            Err(error) => {
                return Input {
                    count: 0,
                    failure: Some(error),
                    ended: false,
                };
            }
        }
    }
    Input {
        count: done,
        failure: None,
        ended: false,
    }
}

// The system's words for an error, without the number that std puts behind them.
fn reason(alloc: Global, error: &io::Error) -> Result<String, AllocError> {
    let text = error.to_string(alloc)?;
    match text.split_once(" (os error ") {
        Some((words, _)) => String::from_str(alloc, words),
        None => Ok(text),
    }
}

// A line on standard error: what failed, and why. Where there is no memory for the system's words alone, their number stands behind them. A
// line that cannot be written is lost.
pub fn report_failure(rt: &(impl Eprint + AllocGlobal), what: &str, error: &io::Error) {
    let _ = match reason(rt.alloc(), error) {
        Ok(words) => eprintln!(rt; "{what}: {words}"),
        Err(AllocError) => eprintln!(rt; "{what}: {error}"),
    };
}

#[cfg(test)]
mod tests {
    use super::*;
    use std::io::ErrorKind;

    // Gives its bytes one at a time, and then fails, or ends where it has no failure.
    #[derive(Drop)]
    struct Slow {
        left: u8,
        failure: Option<ErrorKind>,
    }

    impl Read for Slow {
        fn read(&mut self, buf: &mut [u8]) -> io::Result<usize> {
            if buf.is_empty() {
                return Ok(0);
            }
            if self.left > 0 {
                buf[0] = self.left;
                self.left -= 1;
                return Ok(1);
            }
            match self.failure {
                Some(kind) => Err(io::Error::from(kind)),
                None => Ok(0),
            }
        }
    }

    fn slow_reader(left: u8, failure: Option<ErrorKind>) -> Slow {
        Slow { left, failure }
    }

    #[test]
    fn short_reads_until_the_end(rt: HostRuntime) {
        let mut buffer = [9u8; 4];
        let input = read_input(&mut slow_reader(3, None), &mut buffer);
        assert_eq!(rt; input.count, 3);
        assert!(rt; input.failure.is_none());
        assert!(rt; input.ended);
        assert_eq!(rt; buffer, [3, 2, 1, 9]);
    }

    #[test]
    fn full_buffer(rt: HostRuntime) {
        let mut buffer = [9u8; 4];
        let input = read_input(&mut slow_reader(5, None), &mut buffer);
        assert_eq!(rt; input.count, 4);
        assert!(rt; input.failure.is_none());
        assert!(rt; !input.ended);
        assert_eq!(rt; buffer, [5, 4, 3, 2]);
    }

    #[test]
    fn failed_and_interrupted_reads(rt: HostRuntime) {
        for kind in [ErrorKind::ConnectionReset, ErrorKind::Interrupted] {
            let mut buffer = [9u8; 4];
            let input = read_input(&mut slow_reader(3, Some(kind)), &mut buffer);
            assert_eq!(rt; input.count, 0);
            assert_eq!(rt; input.failure.map(|error| error.kind()), Some(kind));
            assert!(rt; !input.ended);
        }
    }

    #[test]
    fn failure_in_the_systems_words(rt: HostRuntime) -> Result<(), AllocError> {
        let words = reason(rt.alloc(), &io::Error::from_raw_os_error(21))?;
        assert_eq!(rt; words.as_str(), "Is a directory");
        Ok(())
    }
}
