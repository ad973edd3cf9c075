// Reads and writes that come in parts, and that fail on the way; and what is said then.
use super::{Failure, ended, read_input, write_output};
use std::io;
use std::process::ExitCode;

// Gives its bytes one at a time, and fails where it has given `good`.
#[derive(Drop)]
struct Parts<'a> {
    bytes: &'a [u8],
    given: usize,
    good: usize,
}

impl<'a> io::Read for Parts<'a> {
    fn read(&mut self, buf: &mut [u8]) -> io::Result<usize> {
        if self.given == self.good {
            return Err(io::Error::from(io::ErrorKind::BrokenPipe));
        }
        match (self.bytes.get(self.given), buf.first_mut()) {
            (Some(byte), Some(place)) => {
                *place = *byte;
                self.given = self.given.saturating_add(1);
                Ok(1)
            }
            _ => Ok(0),
        }
    }
}

// Takes its bytes in parts of at most three, and fails where it has taken `good`.
#[derive(Drop)]
struct Room {
    bytes: Vec<u8>,
    good: usize,
}

impl io::Write for Room {
    fn write(&mut self, buf: &[u8]) -> io::Result<usize> {
        let left = self.good.saturating_sub(self.bytes.len());
        if left == 0 {
            return Err(io::Error::from(io::ErrorKind::StorageFull));
        }
        let n = buf.len().min(left).min(3);
        self.bytes.extend_from_slice(&buf[..n])?;
        Ok(n)
    }

    fn flush(&mut self) -> io::Result<()> {
        Ok(())
    }
}

#[test]
fn reads_in_parts(rt: HostRuntime) {
    let bytes = b"12040000";
    for (room, good, want) in [
        (8, 9, Some(8)),
        (16, 9, Some(8)),
        (5, 9, Some(5)),
        (5, 5, Some(5)),
        (8, 4, None),
        (8, 0, None),
    ] {
        let mut reader = Parts {
            bytes,
            given: 0,
            good,
        };
        let mut buffer = [0u8; 16];
        let read = read_input(&mut reader, &mut buffer[..room]).ok();
        assert_eq!(rt; read, want, "room for {room}, {good} good");
        if let Some(n) = read {
            assert!(rt; buffer[..n] == bytes[..n], "room for {room}, {good} good");
        }
    }
}

#[test]
fn writes_in_parts(rt: HostRuntime) {
    let bytes = b"refused 2\n";
    for (good, is_whole) in [(10, true), (11, true), (9, false), (4, false), (0, false)] {
        let mut writer = Room {
            bytes: Vec::new(rt.alloc()),
            good,
        };
        assert_eq!(rt;
            write_output(&mut writer, bytes).is_ok(),
            is_whole,
            "room for {good}"
        );
        assert_eq!(rt; writer.bytes.len(), good.min(10), "room for {good}");
    }
}

#[test]
fn tells_a_failure(rt: HostRuntime) {
    let folder = io::Error::from_raw_os_error(21);
    let full = io::Error::from_raw_os_error(28);
    let pipe = io::Error::from(io::ErrorKind::BrokenPipe);
    for (failure, line) in [
        (
            Failure::Reading(folder),
            "p: reading the input: Is a directory\n",
        ),
        (
            Failure::Writing(full),
            "p: writing the output: No space left on device\n",
        ),
        (
            Failure::Writing(pipe),
            "p: writing the output: broken pipe\n",
        ),
    ] {
        let mut told = Room {
            bytes: Vec::new(rt.alloc()),
            good: 100,
        };
        let code = ended(&mut told, "p", Err(failure));
        assert!(rt; code == ExitCode::FAILURE, "{line}");
        assert!(rt; told.bytes.as_slice() == line.as_bytes(), "{line}");
    }
}
