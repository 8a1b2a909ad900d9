//! The fields of a line.

ghost use Rattle.std.specs.Prelude.{◌≡◌, ◌≢◌, ℕ, ◌<◌, ◌≤◌, length, slice_index};
ghost use Rattle.std.specs.Iterator.{YieldsFirstBy, item_count};
ghost use Rattle.script.specs.Lines.{fields_of};

/// The fields of a line that are still to come.
#[derive(Drop)]
pub struct Fields<'a>(pub &'a [u8]);

impl<'a> Iterator for Fields<'a> {
    type Item = &'a [u8];

    ghost next_gives = { YieldsFirstBy (λ x. x.now) (λ s. fields_of s.0.now) };

    ghost remaining = { item_count (λ s. fields_of s.0.now) };

    fn next(&mut self) -> Option<&'a [u8]> {
        let (_, text) = self.0.split_at(spaces_at_front(self.0));
        let (field, rest) = text.split_at(bytes_before_space(text));
        self.0 = rest;
        if field.is_empty() { None } else { Some(field) }
    }
}

fn spaces_at_front(line: &[u8]) -> usize
    ensures within { result ≤ length line.now }
    ensures spaces { (k : ℕ) → k < result → slice_index line.now k ≡ 32 }
    ensures end { result < length line.now → slice_index line.now result ≢ 32 }
{
    line.iter().position(|b| *b != b' ').unwrap_or(line.len())
}

fn bytes_before_space(line: &[u8]) -> usize
    ensures within { result ≤ length line.now }
    ensures bytes { (k : ℕ) → k < result → slice_index line.now k ≢ 32 }
    ensures end { result < length line.now → slice_index line.now result ≡ 32 }
{
    line.iter().position(|b| *b == b' ').unwrap_or(line.len())
}
