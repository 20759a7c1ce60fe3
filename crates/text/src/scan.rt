// The scan of one line.
ghost use Rattle.std.specs.Prelude.{◌≡◌, ◌<◌, ◌∷◌, ◌==◌, length, drop};
ghost use Rattle.std.specs.List.{position};
ghost use Rattle.text.specs.Lines.{lines};

use grammar::line::LF;

// The place of the first LF, or none.
fn line_end(text: &[u8]) -> Option<usize>
    ensures { result ≡ position (λ b. b == 10) text.now }
{
    text.iter().position(|byte| *byte == LF)
}

// The line that begins at a place, with its LF where it has one.
pub(crate) fn line_at(bytes: &[u8], at: usize) -> &[u8]
    requires { at < length bytes.now }
    ensures { lines (drop at bytes.now) ≡ result.now ∷ lines (drop (length result.now) (drop at bytes.now)) }
{
    let rest = &bytes[at..];
    match line_end(rest) {
        Some(end) => &rest[..=end],
        None => rest,
    }
}
