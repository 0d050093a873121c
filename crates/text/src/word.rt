// A line's first word.
ghost use Rattle.std.specs.Prelude.{◌≡◌};
ghost use Rattle.text.specs.Word.{is_first_word};

// The first word of a line is exactly the given one.
pub fn first_word_is(line: &[u8], word: &[u8]) -> bool
    ensures { result ≡ is_first_word word.now line.now }
{
    let Some(rest) = line.strip_prefix(word) else {
        return false;
    };
    matches!(rest, [] | [b' ' | b'\n', ..])
}
