// What follows from the definitions alone. The function does nothing: its contract is the theorem.
ghost use Rattle.std.specs.Prelude.{◌≡◌, ℕ, List};
ghost use Rattle.notation.specs.Lines.{InRange, Spoken, Stands, line_text};

// The text that is written says what it was written for, and no line says two things.
pub fn what_is_written_reads_back()
    ensures back { (s : Spoken) → InRange s → Stands (line_text s) s }
    ensures once { (line : List ℕ) (s t : Spoken) → Stands line s → Stands line t → s ≡ t }
{}
