//! Two texts, line by line.

ghost use Rattle.std.specs.Prelude.{◌≡◌, length};
ghost use Rattle.trace_check.specs.Lines.{lines, differing};

/// How many lines a text has. The last may lack its newline.
pub fn count_lines(text: &[u8]) -> usize
    ensures { result ≡ length (lines text.now) }
{
    let mut count: usize = 0;
    let mut begins = true;
    for b in text {
        if begins {
            count += 1;
        }
        begins = *b == b'\n';
    }
    count
}

/// The first line, from 1, in which two texts differ or which one of them lacks.
pub fn difference(first: &[u8], second: &[u8]) -> Option<usize>
    ensures { result ≡ differing 1 (lines first.now) (lines second.now) }
{
    let mut line: usize = 1;
    for (i, b) in first.iter().enumerate() {
        if i >= second.len() {
            return Some(line);
        }
        if second[i] != *b {
            return Some(line);
        }
        if *b == b'\n' {
            line += 1;
        }
    }
    if first.len() < second.len() {
        Some(line)
    } else {
        None
    }
}
