ghost use Rattle.std.specs.Prelude.{◌≡◌};
ghost use Rattle.word_kinds.specs.Texts.{Word, text};
ghost use Rattle.word_kinds.specs.Readings.{IsGood, kind_of, word_read};

/// A word is read back from its text.
pub fn read_back()
    ensures { (word : Word) → IsGood word → word_read (kind_of word) (text word) ≡ word }
{}
