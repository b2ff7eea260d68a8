// Cutting a text in two.
ghost use Rattle.std.specs.Prelude.{◌≡◌};
ghost use Rattle.std.specs.Option.{option_map};
ghost use Rattle.reader.specs.Lines.{cut_at};

/// The bytes before the first `mark`, and those after it, or `None` where there is no `mark`.
pub fn cut(s: &[u8], mark: u8) -> Option<(&[u8], &[u8])>
    ensures { option_map (λ p. (p.0.now, p.1.now)) result ≡ cut_at mark s.now }
{
    // With the library's `position` a script's long lines took three times as long to cut.
    let left = s.split(|b| *b == mark).next()?;
    Some((left, s.get(left.len() + 1..)?))
}
