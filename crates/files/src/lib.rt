// Files, read from the start on: into a buffer that is lent, or into a vector.
#![tactic(auto)]

ghost use Rattle.std.specs.Prelude.{◌<◌, ◌≤◌, IfOk, IfSome, length, take, vec_len};
ghost use Rattle.std.specs.Io.KnownBytes.{Consumes, IsAtEnd};
ghost use Rattle.files.specs.Counts.{IsPrefixLen};

use std::fmt::Display;
use std::io::Read;
use std::rt::Files;
use std::{fs, io, str};

// Reads until the buffer is full, the input ends or a read fails, and answers how many bytes it read.
fn read_all<F: Read>(file: &mut F, buffer: &mut [u8]) -> io::Result<usize>
    ensures in_bounds { IfOk result (λ n. IsPrefixLen n buffer.new) }
    ensures bytes { IfOk result (λ n. Consumes (F.remaining file.old) (F.remaining file.new) (take n buffer.new)) }
    ensures end { IfOk result (λ n. n < length buffer.new → IsAtEnd (F.remaining file.new)) }
{
    let mut end = 0;
    // By a while: it goes on by as many bytes as each read gives. `read_exact` does not say how many stand before an early end.
    while end < buffer.len() {
        let more = file.read(&mut buffer[end..])?;
        if more == 0 {
            return Ok(end);
        }
        end += more;
    }
    Ok(end)
}

// Opens a file and reads as much of it as the buffer holds.
fn read_named<R: Files>(rt: &R, name: &str, buffer: &mut [u8]) -> io::Result<usize>
    ensures { IfOk result (λ n. IsPrefixLen n buffer.new) }
{
    let mut file = fs::open(rt, name)?;
    read_all(&mut file, buffer)
}

// Says on standard error why something failed: what it is, a colon and the error's text.
fn fail<R: Eprint, D: Display + Drop>(rt: &R, what: D, error: io::Error) {
    let _ = eprintln!(rt; "{what}: {error}");
}

// Reads a file, as much of it as the buffer holds, and answers how many bytes that is; says on standard error why it cannot.
// A path that is not UTF-8 names none.
pub fn read_file<R: Files + Eprint>(rt: &R, path: &[u8], buffer: &mut [u8]) -> Option<usize>
    ensures { IfSome result (λ n. IsPrefixLen n buffer.new) }
{
    let Ok(name) = str::from_utf8(path) else {
        let error = io::Error::from(io::ErrorKind::InvalidFilename);
        fail(rt, path.escape_ascii(), error);
        return None;
    };
    match read_named(rt, name, buffer) {
        Ok(length) => Some(length),
        Err(error) => {
            fail(rt, name, error);
            None
        }
    }
}

// Reads so many bytes of a file into a vector, or all where it has fewer; says on standard error why it cannot.
pub fn read_start<R: Files + Eprint + AllocGlobal>(
    rt: &R,
    path: &[u8],
    most: usize,
) -> Option<Vec<u8>>
    ensures { IfSome result (λ bytes. vec_len bytes ≤ most) }
{
    match vec![in rt.alloc(); 0; most] {
        Ok(mut bytes) => {
            let length = read_file(rt, path, bytes.as_mut_slice())?;
            bytes.truncate(length);
            Some(bytes)
        }
        Err(error) => {
            fail(rt, path.escape_ascii(), io::Error::from(error));
            None
        }
    }
}

#[cfg(test)]
mod tests {
    use super::*;
    use std::test::Fail;

    #[test]
    fn reads_into_a_buffer(rt: HostRuntime) -> Result<(), Fail> {
        fs::write(&rt, "buffer.txt", "a plan")?;
        let mut short = [0u8; 3];
        let mut long = [b'.'; 8];
        let some = read_file(&rt, b"buffer.txt", &mut short);
        let all = read_file(&rt, b"buffer.txt", &mut long);
        fs::remove_file(&rt, "buffer.txt")?;
        assert_eq!(rt; some, Some(3));
        assert_eq!(rt; short.as_slice(), b"a p".as_slice());
        assert_eq!(rt; all, Some(6));
        assert_eq!(rt; long.as_slice(), b"a plan..".as_slice());
        assert!(rt; read_file(&rt, b"buffer.txt", &mut short).is_none());
        Ok(())
    }

    #[test]
    fn reads_the_start(rt: HostRuntime) -> Result<(), Fail> {
        fs::write(&rt, "start.txt", "a plan")?;
        let some = read_start(&rt, b"start.txt", 3).ok_or("not read")?;
        let all = read_start(&rt, b"start.txt", 7).ok_or("not read")?;
        fs::remove_file(&rt, "start.txt")?;
        assert_eq!(rt; some.as_slice(), b"a p".as_slice());
        assert_eq!(rt; all.as_slice(), b"a plan".as_slice());
        assert!(rt; read_start(&rt, b"start.txt", 3).is_none());
        Ok(())
    }
}
