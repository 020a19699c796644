// Bytes looked for in a text.
ghost use Rattle.std.specs.Prelude.{length, MatchOption};
ghost use Rattle.texts.specs.Texts.{Free, FirstAt};

// Where the byte stands first.
pub fn position(bytes: &[u8], byte: u8) -> Option<usize>
    ensures { MatchOption result (Free byte (length bytes.now) bytes.now) (λ i. FirstAt byte i bytes.now) }
{
    bytes.iter().position(|b| *b == byte)
}
