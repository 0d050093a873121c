// The word that a line starts with.
ghost use Rattle.std.specs.Prelude.{◌≡◌, length, max};
ghost use Rattle.command.specs.Words.{range_word, hash_word, spelling, word_of, shared, word_fault};

use text::word::first_word_is;

// A word that a range set follows.
#[derive(Clone, Copy)]
pub enum RangeWord {
    Zero,
    Erase,
    New,
}

// A word that a hash follows.
#[derive(Clone, Copy)]
pub enum HashWord {
    Move,
    Stash,
    Free,
}

#[derive(Clone, Copy)]
pub enum Word {
    Ranges(RangeWord),
    Hash(HashWord),
    Bsdiff,
    Imgdiff,
    Unknown,
}

impl RangeWord {
    pub(crate) fn spelling(self) -> &'static [u8]
        ensures { result.now ≡ range_word self }
    {
        match self {
            RangeWord::Zero => b"zero",
            RangeWord::Erase => b"erase",
            RangeWord::New => b"new",
        }
    }
}

impl HashWord {
    pub(crate) fn spelling(self) -> &'static [u8]
        ensures { result.now ≡ hash_word self }
    {
        match self {
            HashWord::Move => b"move",
            HashWord::Stash => b"stash",
            HashWord::Free => b"free",
        }
    }
}

impl Word {
    fn spelling(self) -> &'static [u8]
        ensures { result.now ≡ spelling self }
    {
        match self {
            Word::Ranges(word) => word.spelling(),
            Word::Hash(word) => word.spelling(),
            Word::Bsdiff => b"bsdiff",
            Word::Imgdiff => b"imgdiff",
            Word::Unknown => b"",
        }
    }
}

// The words that a good line can start with.
const GOOD_WORDS: [Word; 7] = [
    Word::Ranges(RangeWord::Zero),
    Word::Ranges(RangeWord::Erase),
    Word::Ranges(RangeWord::New),
    Word::Hash(HashWord::Move),
    Word::Hash(HashWord::Stash),
    Word::Hash(HashWord::Free),
    Word::Bsdiff,
];

pub(crate) fn word_of(l: &[u8]) -> Word
    ensures { result ≡ word_of l.now }
{
    for word in &GOOD_WORDS {
        if first_word_is(l, word.spelling()) {
            return *word;
        }
    }
    if first_word_is(l, b"imgdiff") {
        Word::Imgdiff
    } else {
        Word::Unknown
    }
}

// How many of a line's first bytes are those of a word.
fn shared_bytes(l: &[u8], word: &[u8]) -> usize
    ensures { result ≡ shared word.now l.now }
{
    word.iter().zip(l).take_while(|(c, b)| c == b).count()
}

// The first byte of a line at which none of the words of good lines could go on.
pub(crate) fn word_fault(l: &[u8]) -> usize
    ensures { result ≡ word_fault l.now }
{
    let mut most = 0;
    for word in &GOOD_WORDS {
        most = most.max(shared_bytes(l, word.spelling()));
    }
    most
}
