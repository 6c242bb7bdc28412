// What is proved beyond what was asked for.

// `get_sounded_key` gives a key exactly for the spellings that demand 3 speaks of, in an accepted layout, and then the key that the
// spelling sounds; signs that are told by one signed number add N times it to the place.
ghost use Rattle.layout.specs.Theorems.{SpellingsHaveAKey};
ghost use Rattle.pergen.specs.Theorems.{SignsAddToThePlace};

pub fn sounded_keys()
    ensures { SpellingsHaveAKey × SignsAddToThePlace }
{
    ()
}

// The two moves of a pattern make any octaves and generators, in one way, and follow from its own numbers; every accepted layout has them,
// and from the key with its cycle's number they reach every key.
ghost use Rattle.mos_moves.specs.Theorems.{MovesReachAll, PatternsTellTheirMoves};
ghost use Rattle.layout_moves.specs.Theorems.{LayoutsHaveMoves, MovesReachEveryKey};

pub fn moves_reach_all()
    ensures { MovesReachAll × PatternsTellTheirMoves × LayoutsHaveMoves × MovesReachEveryKey }
{
    ()
}

// Both steps stay above 0 along a walk that begins so, a pattern has room for its letters, and what is made is a pattern by question 7.
ghost use Rattle.mos.specs.Theorems.{StepsStayAbove, LettersFit, MadePatterns};

pub fn patterns_are_sound()
    ensures { StepsStayAbove × LettersFit × MadePatterns }
{
    ()
}

// How large things get: the signs and stars of a key, by R and N and by T; T by the octave, and the octave by T; layers enough to fill the
// reduced size.
ghost use Rattle.pergen.specs.Theorems.{FewSigns};
ghost use Rattle.layout_layers.specs.Theorems.{SignsByCount, CountsFit, KeysByCount};
ghost use Rattle.mos_layers.specs.Theorems.{EnoughLayers};

pub fn counts()
    ensures { FewSigns × SignsByCount × CountsFit × KeysByCount × EnoughLayers }
{
    ()
}

// How much room is enough: for a name, which is never empty, a book, a table and its lines, and a keyboard mapping.
ghost use Rattle.notes.specs.Theorems.{NamesAreShort, NamesAreNotEmpty};
ghost use Rattle.layout_book.specs.Theorems.{OffsetsFit};
ghost use Rattle.layout_table.specs.Theorems.{TablesFit};
ghost use Rattle.kbm_text.specs.Theorems.{MappingsFit};
ghost use Rattle.layout_kbm.specs.Theorems.{FilesFit};

pub fn room()
    ensures { NamesAreShort × NamesAreNotEmpty × OffsetsFit × TablesFit × MappingsFit × FilesFit }
{
    ()
}

// Numbers are read back from their digits and from their four bytes; lowest terms are lowest; odd factors are odd, and all that is left out
// are twos.
ghost use Rattle.text.specs.Theorems.{DigitsReadBack, FourBytesReadBack};
ghost use Rattle.math.specs.Gcd.{LowestTermsAreLowest};
ghost use Rattle.math.specs.OddFactors.{OddFactorsAreLeft};

pub fn numbers_read_back()
    ensures { DigitsReadBack × FourBytesReadBack × LowestTermsAreLowest × OddFactorsAreLeft }
{
    ()
}

// A typed name is read back: every spelling's text, printed on a cap or not, to that spelling and to the key that it sounds, two spellings
// of one key to that key, and each name that the naming call writes to its key. Nothing else is read.
ghost use Rattle.layout_reading.specs.Theorems.{
  ReadingUndoesWriting,
  TwoSpellingsLeadToTheirKey,
  NothingElseIsRead,
  NothingElseLeadsToAKey,
  NamesLeadBack,
};

pub fn typed_names()
    ensures { ReadingUndoesWriting × TwoSpellingsLeadToTheirKey × NothingElseIsRead × NothingElseLeadsToAKey × NamesLeadBack }
{
    ()
}

// Why two typed spellings are one key or two: the verdict is one key exactly where both sound one key, by counting stars and places; the
// numbers are those of the spellings that were typed; and what the sentences say of places and keys is so.
ghost use Rattle.layout_explaining.specs.Theorems.{
  VerdictsHold,
  ExplanationsHold,
  AllSpellingsAreExplained,
  TextsTellTheExplanation,
  SentencesHold,
};

pub fn explanations()
    ensures { VerdictsHold × ExplanationsHold × AllSpellingsAreExplained × TextsTellTheExplanation × SentencesHold }
{
    ()
}
