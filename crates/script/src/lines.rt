//! The lines of a script.

ghost use Rattle.std.specs.Prelude.{◌≡◌, ◌≢◌, ℕ, ◌<◌, ◌≤◌, drop, length, slice_index};
ghost use Rattle.std.specs.Iterator.{YieldsFirstBy, item_count};
ghost use Rattle.script.specs.Lines.{lines_of};

/// The lines of a script that are still to come.
#[derive(Drop)]
pub struct ScriptLines<'a>(pub &'a [u8]);

impl<'a> Iterator for ScriptLines<'a> {
    type Item = &'a [u8];

    ghost next_gives = { YieldsFirstBy (λ x. x.now) (λ s. lines_of s.0.now) };

    ghost remaining = { item_count (λ s. lines_of s.0.now) };

    fn next(&mut self) -> Option<&'a [u8]> {
        if self.0.is_empty() {
            return None;
        }
        let (line, rest) = self.0.split_at(bytes_before_newline(self.0));
        self.0 = without_first(rest);
        Some(line)
    }
}

fn bytes_before_newline(text: &[u8]) -> usize
    ensures within { result ≤ length text.now }
    ensures bytes { (k : ℕ) → k < result → slice_index text.now k ≢ 10 }
    ensures end { result < length text.now → slice_index text.now result ≡ 10 }
{
    text.iter().position(|b| *b == b'\n').unwrap_or(text.len())
}

fn without_first(bytes: &[u8]) -> &[u8]
    ensures { result.now ≡ drop 1 bytes.now }
{
    match bytes {
        [_, rest @ ..] => rest,
        [] => bytes,
    }
}
