// What the programs share: an argument that is there or not, a file read from the input, and the front of a
// pool that holds a text.
ghost use Rattle.std.specs.Prelude.{◌≡◌, ◌≤◌, length, take};
ghost use Rattle.text_lines.specs.Argument.{is_given};

use std::env::FillError;
use std::io::Read;

// Whether a program has an argument, by what the system answers when it is asked for it.
pub fn is_given(answer: Result<usize, FillError>) -> bool
    ensures { result ≡ is_given answer }
{
    !matches!(answer, Err(FillError::NotPresent))
}

// Reads until the list is full, or the input ends or can't be read, and answers how many bytes it put at the
// list's front.
pub fn read_full(input: &mut impl Read, bytes: &mut [u8]) -> usize
    ensures { result ≤ length bytes.new }
{
    let mut done = 0;
    // No count: each read goes on by as many bytes as it got.
    while done < bytes.len() {
        let got = input.read(&mut bytes[done..]);
        let Ok(n) = got else {
            break;
        };
        if n == 0 {
            break;
        }
        done += n;
    }
    done
}

// The text of a size that the pool holds from its front on.
pub fn front(text: &[u8], size: usize) -> &[u8]
    ensures { result.now ≡ take size text.now }
{
    if text.len() < size {
        return text;
    }
    &text[..size]
}
