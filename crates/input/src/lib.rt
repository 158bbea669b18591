// Reads what a program is given into the bytes that it has room for.
#![tactic(auto)]

ghost use Rattle.std.specs.Prelude.{◌≤◌, length, take};
ghost use Rattle.std.specs.Io.KnownBytes.{Consumes};

use std::io::Read;

// Reads until `bytes` is full, the input ends or a read fails, and returns how many bytes it put at
// their front: what the reader gave, in order.
pub fn read_full<R: Read>(input: &mut R, bytes: &mut [u8]) -> usize
    ensures within { result ≤ length bytes.new }
    ensures read { Consumes (R.remaining input.old) (R.remaining input.new) (take result bytes.new) }
{
    let mut done = 0;
    while done < bytes.len() {
        match input.read(&mut bytes[done..]) {
            Ok(n) if n > 0 => done += n,
            _ => break,
        }
    }
    done
}

#[cfg(test)]
mod tests {
    use super::*;
    use std::io;
    use std::io::ErrorKind;

    // Gives one byte, and then fails.
    #[derive(Drop)]
    struct Cut {
        is_read: bool,
    }

    impl Read for Cut {
        fn read(&mut self, bytes: &mut [u8]) -> io::Result<usize> {
            if self.is_read {
                return Err(io::Error::from(ErrorKind::ConnectionReset));
            }
            self.is_read = true;
            match bytes.first_mut() {
                Some(first) => {
                    *first = 7;
                    Ok(1)
                }
                None => Ok(0),
            }
        }
    }

    #[test]
    fn stops_where_a_read_fails(rt: HostRuntime) {
        let mut bytes = [0u8; 3];
        let n = read_full(&mut Cut { is_read: false }, &mut bytes);
        assert_eq!(rt; n, 1);
        assert_eq!(rt; bytes, [7, 0, 0]);
    }

    #[test]
    fn stops_where_the_input_ends(rt: HostRuntime) {
        let mut bytes = [0u8; 4];
        let mut input: &[u8] = b"hen";
        let n = read_full(&mut input, &mut bytes);
        assert_eq!(rt; n, 3);
        assert_eq!(rt; bytes, [104, 101, 110, 0]);
    }

    #[test]
    fn reads_no_more_than_fits(rt: HostRuntime) {
        let mut bytes = [0u8; 2];
        let mut input: &[u8] = b"hen";
        let n = read_full(&mut input, &mut bytes);
        assert_eq!(rt; n, 2);
        assert_eq!(rt; input.len(), 1);
    }
}
