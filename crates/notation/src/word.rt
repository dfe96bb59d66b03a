// Words stand between blanks; a `#` ends the line.
ghost use Rattle.std.specs.Prelude.{◌≡◌};
ghost use Rattle.notation.specs.Words.{behind, blank, solid, word};

fn is_blank(byte: u8) -> bool
    ensures { result ≡ blank byte }
{
    matches!(byte, b' ' | b'\t' | b'\r')
}

fn is_solid(byte: u8) -> bool
    ensures { result ≡ solid byte }
{
    !is_blank(byte) && byte != b'#'
}

// The first word, and what stands behind it. It is empty where there is none, and no Option: each reader of a word refuses the empty one with its own error.
pub fn next_word(line: &[u8]) -> (&[u8], &[u8])
    ensures first { result.0.now ≡ word line.now }
    ensures second { result.1.now ≡ behind line.now }
{
    let blanks = line.iter().take_while(|byte| is_blank(**byte)).count();
    let (_, text) = line.split_at(blanks);
    let solids = text.iter().take_while(|byte| is_solid(**byte)).count();
    text.split_at(solids)
}
