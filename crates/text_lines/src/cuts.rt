//! Where a text is cut into lines, and a line into words.

ghost use Rattle.std.specs.Prelude.{◌≡◌, ◌==◌, position};
ghost use Rattle.text_lines.specs.Cuts.{IsCut, is_skipped};

/// The place of the first byte c.
fn first_place(text: &[u8], c: u8) -> Option<usize>
    ensures { result ≡ position (λ b. b == c) text.now }
{
    text.iter().position(|b| *b == c)
}

/// Where the first part of a text ends that is cut at each byte c.
pub fn first_cut(text: &[u8], c: u8) -> Option<usize>
    ensures { IsCut c text.now result }
{
    first_place(text, c)
}

/// Whether the line is empty or begins with `#`.
pub fn is_skipped(line: &[u8]) -> bool
    ensures { result ≡ is_skipped line.now }
{
    match line {
        [] => true,
        [b, ..] => *b == b'#',
    }
}
