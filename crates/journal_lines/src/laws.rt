//! Laws of the lines of journals. Each function says one, and does nothing.

ghost use Rattle.std.specs.Prelude.{◌≡◌, ℕ, ◌<◌, ◌^◌, ◌∷◌, ◌++◌, List};
ghost use Rattle.journal_lines.specs.Lines.{end_line, ended, line_of, lines_in};

/// The line of an entry determines its number, both its texts and its seat.
pub fn law_of_lines()
    ensures { (m n : ℕ) (call reply calls replies : List ℕ) (seat seats : ℕ) → m < 2 ^ 64 → n < 2 ^ 64 → seat < 2 ^ 64 → seats < 2 ^ 64 → line_of m call reply seat ≡ line_of n calls replies seats → (m ≡ n) × (call ≡ calls) × (reply ≡ replies) × (seat ≡ seats) }
{}

/// The line of an entry is no last line.
pub fn law_of_last_lines()
    ensures { (n : ℕ) (call reply : List ℕ) (seat count : ℕ) → line_of n call reply seat ≡ end_line count → ⊥ }
{}

/// The line of an entry has no newline in it, and so ends at its own.
pub fn law_of_line_ends()
    ensures { (n : ℕ) (call reply : List ℕ) (seat : ℕ) (rest : List ℕ) → n < 2 ^ 64 → seat < 2 ^ 64 → lines_in (ended (line_of n call reply seat) ++ rest) ≡ ended (line_of n call reply seat) ∷ lines_in rest }
{}

/// Nor has the last line.
pub fn law_of_last_line_ends()
    ensures { (n : ℕ) (rest : List ℕ) → n < 2 ^ 64 → lines_in (ended (end_line n) ++ rest) ≡ ended (end_line n) ∷ lines_in rest }
{}
