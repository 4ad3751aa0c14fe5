// The lines of an input.
ghost use Rattle.std.specs.Prelude.{ℕ, List, MatchOption};
ghost use Rattle.input.specs.Lines.{FirstLine, NoLine, LastLine};

// The bytes before the first line feed and the bytes after it, or None where there is no line feed.
pub fn split_line(input: &[u8]) -> Option<(&[u8], &[u8])>
    ensures { MatchOption result (NoLine input.now) (λ p. FirstLine input.now p.0.now p.1.now) }
{
    let end = input.iter().position(|byte| *byte == b'\n')?;
    Some((&input[..end], &input[end + 1..]))
}

// The last line of an input, with or without its line feed, or None where more stands after a line feed.
pub fn last_line(input: &[u8]) -> Option<&[u8]>
    ensures { MatchOption result ((w : List ℕ) → LastLine input.now w → ⊥) (λ w. LastLine input.now w.now) }
{
    match split_line(input) {
        None => Some(input),
        Some((line, [])) => Some(line),
        Some(_) => None,
    }
}
