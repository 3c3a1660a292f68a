// Text taken apart: lines, words with blanks between them, and decimal numbers.
ghost use Rattle.std.specs.Prelude.{◌≡◌, ◌≤◌, length, IfSome};
ghost use Rattle.program.specs.Text.{decimal};

// a space, a tab, or of a line end, which Windows makes of two octets
fn is_blank(x: u8) -> bool {
    matches!(x, b' ' | b'\t' | b'\r' | b'\n')
}

// the first word of a text, empty where there is none, and what is behind it
pub fn first_word(s: &[u8]) -> (&[u8], &[u8]) {
    let at = s.iter().position(|x| !is_blank(*x)).unwrap_or(s.len());
    let s = &s[at..];
    let end = s.iter().position(|x| is_blank(*x)).unwrap_or(s.len());
    s.split_at(end)
}

// the line of a table whose first word is the given one, counted from 0
pub fn line_of(table: &[u8], word: &[u8]) -> Option<usize> {
    table
        .split(|x| *x == b'\n')
        .position(|line| first_word(line).0 == word)
}

// line k of a table, with no line end; nothing, where it has no such line
pub fn line_at(table: &[u8], k: usize) -> &[u8] {
    table.split(|x| *x == b'\n').nth(k).unwrap_or(&[])
}

// the number that a word's digits spell
// kept: a loop: with `try_fold` the proof that it is `decimal` did not close (tried)
fn number(s: &[u8]) -> Option<u64>
    ensures { result ≡ decimal 0 s.now }
{
    let mut v: u64 = 0;
    for x in s {
        if !x.is_ascii_digit() {
            return None;
        }
        v = v.saturating_mul(10).saturating_add((*x - b'0') as u64);
    }
    Some(v)
}

// how many numbers the words of s spell, up to 8, and those; none where there are more or where a word spells none
// kept: a row with how many beside it, for there is no heap; with `try_fold` the proof of n ≤ 8 did not close (tried)
pub fn numbers(s: &[u8], row: &mut [u64; 8]) -> Option<usize>
    ensures { IfSome result (λ n. n ≤ 8) }
{
    let mut n = 0;
    for word in s.split(|x| is_blank(*x)).filter(|word| !word.is_empty()) {
        *row.get_mut(n)? = number(word)?;
        n += 1;
    }
    Some(n)
}

// a number, up to the most that it may be
pub fn limited(x: u64, most: usize) -> usize
    ensures { result ≤ most }
{
    (x as usize).min(most)
}
