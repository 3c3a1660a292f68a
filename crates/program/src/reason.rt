// Why something failed, in the system's words.
ghost use Rattle.std.specs.Prelude.{◌≤◌, length};

use std::io::{Cursor, Error, Write};

// the place behind the words: the number of an error of the system comes behind them, in brackets, and is left out
fn words_end(text: &[u8], is_numbered: bool) -> usize
    ensures { result ≤ length text.now }
{
    if !is_numbered {
        return text.len();
    }
    text.iter()
        .rposition(|x| *x == b'(')
        .map_or(text.len(), |k| k.saturating_sub(1))
}

// on a descriptor, with no line end
pub fn print_reason(fd: i32, error: Error) {
    let mut room = Cursor::new([0u8; 256]);
    let _ = write!(room, "{error}");
    let n = (room.position() as usize).min(256);
    let text = room.into_inner();
    let e = words_end(&text[..n], error.raw_os_error().is_some());
    io::write_all(fd, &text[..e]);
}
