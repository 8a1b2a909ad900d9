//! The lines of a text, each with its newline.

ghost use Rattle.std.specs.Prelude.{◌≡◌, ◌<◌, ◌≤◌, ◌∷◌, drop, length, take};
ghost use Rattle.std.specs.Iterator.{YieldsFirstBy, item_count};
ghost use Rattle.journal_lines.specs.Lines.{lines_in};

/// The lines that are still to come, each with the 0x0a that ends it, which the last may lack.
#[derive(Drop)]
pub struct Lines<'a>(pub &'a [u8]);

impl<'a> Iterator for Lines<'a> {
    type Item = &'a [u8];

    ghost next_gives = { YieldsFirstBy (λ x. x.now) (λ s. lines_in s.0.now) };

    ghost remaining = { item_count (λ s. lines_in s.0.now) };

    fn next(&mut self) -> Option<&'a [u8]> {
        if self.0.is_empty() {
            return None;
        }
        let (line, rest) = self.0.split_at(bytes_in_line(self.0));
        self.0 = rest;
        Some(line)
    }
}

/// How many bytes the first line of a text has that is not empty.
fn bytes_in_line(text: &[u8]) -> usize
    requires { 0 < length text.now }
    ensures within { result ≤ length text.now }
    ensures line { lines_in text.now ≡ take result text.now ∷ lines_in (drop result text.now) }
{
    match text.iter().position(|b| *b == b'\n') {
        Some(place) => place + 1,
        None => text.len(),
    }
}
