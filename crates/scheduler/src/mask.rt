// The mask: a word that the caller keeps, and lends to the calls that raise. A set bit closes its line.
ghost use Rattle.std.specs.Prelude.{◌≡◌, ◌<◌};
ghost use Rattle.model.specs.Bits.{is_set};

#[derive(Clone, Copy, PartialEq, Eq, Debug)]
pub struct Mask {
    word: u16,
}

impl Mask {
    // No line is closed.
    pub fn new() -> Mask
        ensures { result.word ≡ 0 }
    {
        Mask { word: 0 }
    }

    // Replaces the word.
    pub fn set(&mut self, word: u16)
        ensures { self.new.word ≡ word }
    {
        self.word = word;
    }

    pub fn word(&self) -> u16
        ensures { result ≡ self.now.word }
    {
        self.word
    }

    // Whether a line is closed.
    pub(crate) fn closes(&self, line: u32) -> bool
        requires { line < 16 }
        ensures { result ≡ is_set self.now.word line }
    {
        (self.word >> line) & 1 == 1
    }
}
