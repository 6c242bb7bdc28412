// What was asked for, claim by claim: the page to open first.
//
// A function here does nothing. What it ensures is a theorem about the definitions that the contracts of all other crates go by, so the
// gate's line `fn claims::demand_three: proved` says that demand 3 holds. A statement that is made false, or whose proof is lost, leaves
// its claim unproved. Each statement has its own sentence above it in the `specs/` that its `ghost use` line names. What goes beyond what
// was asked stands in `beyond`; what is claimed of a program stands in the program, which no crate can use (`key_table::line_is_enough`,
// `kbm::line_is_enough`, `edo::line_is_enough`).
//
// Three things that were asked for are no functions here, since the contracts themselves are what is claimed:
// - Demand 1, "No input to a public entry point can cause a bad index, a wrapped sum, a zero divisor or an endless walk; no refusal changes
//   a lent byte". Entry points have no `requires`, and a function is proved only if it is safe and ends. What a lent slice holds
//   afterwards is in each contract (`Filled` of answer/specs/Lent: a refusal leaves it as it was).
// - Demand 2's first half: what an entry point answers "is an equation with a definition", input by input. The claims below say of these
//   definitions, from outside, that they are the right ones.
// - W-205, the search as a loop: `mos_walks::search::first_with` and the walk that calls itself, `mos_walks::parts::seek`, promise the same
//   `first_with` of the same walk: "Every answer remains."
//
// Nothing is assumed.
#![tactic(auto)]

pub mod beyond;

ghost use Rattle.std.specs.Prelude.{ℕ};

// ---- demand 3: the key caps

// "For every accepted layout and any two spellings (a letter, any number of sharps or of flats, fewer stars than cycles), printed or not:
// they sound one key of the octave exactly when their stars agree and their places differ by a multiple of the reduced period. For every
// key number each spelling in the key's name, as the naming call writes it, sounds that key; so two key numbers have byte-equal names
// exactly when they differ by whole octaves." Every start is covered, and every key number, below 0 too.
ghost use Rattle.layout.specs.Theorems.{SpellingsSoundOneKey, NamesSoundTheirKey, NamesTellKeysApart};

pub fn demand_three()
    ensures { SpellingsSoundOneKey × NamesSoundTheirKey × NamesTellKeysApart }
{
    ()
}

// ---- demand 2: "pergen, step pattern, spellings, text, scale name, layers, lamp strip and name book"

// Numbers: Euclid's number is the greatest common divisor; and "The remainder law is shown for all widths together": quotient and
// remainder, which is never negative, divide any integer by any number above 0, and no other two numbers do.
ghost use Rattle.math.specs.Gcd.{GcdIsGreatest};
ghost use Rattle.math.specs.Division.{RemainderLaw};

pub fn numbers()
    ensures { GcdIsGreatest × RemainderLaw }
{
    ()
}

// Pergen: the inverse exists, and is "the one number"; a key's degree and cycle sound that key, and are another key's exactly where the two
// are whole octaves apart.
ghost use Rattle.pergen.specs.Theorems.{OneInverse, DegreeSoundsKey, DegreeAndCycleTellKeysApart};

pub fn pergens()
    ensures { OneInverse × DegreeSoundsKey × DegreeAndCycleTellKeysApart }
{
    ()
}

// Spellings, in free formats too: both spellings of a key sound it, and their indices are those of symbols; a key without signs has one
// letter; any two places sound one key exactly where their stars agree and they differ by a multiple of R. "R below N": "A layout never
// comes here."
ghost use Rattle.pergen.specs.Theorems.{AccidentalsSoundTheirKey, LetterWithoutSigns, SpellingsOfOneKey};
ghost use Rattle.layout.specs.Theorems.{EnoughKeys};

pub fn spellings()
    ensures { AccidentalsSoundTheirKey × LetterWithoutSigns × SpellingsOfOneKey × EnoughKeys }
{
    ()
}

// Text: the letters of a chain are distinct, and none has the byte of a sign; what a name prints are the key's two spellings or one of
// them, and from its bytes the first is read back, so equal names have the same first spelling.
ghost use Rattle.genchain.specs.Theorems.{ChainsAreGood};
ghost use Rattle.notes.specs.Theorems.{SpellingsInANameAreTheKeys, ReadingGivesTheFirstSpelling, EqualNamesHaveOneFirstSpelling};

pub fn name_texts()
    ensures { ChainsAreGood × SpellingsInANameAreTheKeys × ReadingGivesTheFirstSpelling × EqualNamesHaveOneFirstSpelling }
{
    ()
}

// Step patterns: a walk is a pattern, its child, and so on until there is none; "Size is conserved"; the parent undoes the child; counts
// only grow; the genesis is found again; `coprime` ends with coprime steps.
ghost use Rattle.mos.specs.Theorems.{WalksAreWhole, ChildKeeps, ParentUndoesChild, CountsGrow, GenesisIsFoundAgain, CoprimeEnds};

pub fn step_patterns()
    ensures { WalksAreWhole × ChildKeeps × ParentUndoesChild × CountsGrow × GenesisIsFoundAgain × CoprimeEnds }
{
    ()
}

// .. and they are scales: each pattern of each walk is the moment of symmetry of its generator, and so many steps of it, fewer than all,
// span one of two sizes.
ghost use Rattle.mos.specs.Scale.{PatternIsScale};
ghost use Rattle.mos.specs.IntervalClasses.{IntervalClassesHaveTwoSizes};

pub fn patterns_are_scales()
    ensures { PatternIsScale × IntervalClassesHaveTwoSizes }
{
    ()
}

// Scale name: a layout's is the chain's "sharpness above / below 0" one, and "at 0 always equalized".
ghost use Rattle.layout_scale_names.specs.Theorems.{ScaleNamesGoBySharpness};

pub fn scale_names()
    ensures { ScaleNamesGoBySharpness }
{
    ()
}

// Layers: a pattern's "sum to the reduced size", and so long is their list. Of a layout's keys every number is below T, key 0's is natural,
// no number is idle where sharpness is not 0, and the entries, P or 2 × P of them, repeat.
ghost use Rattle.mos_layers.specs.Theorems.{LayerSizesSum, LayersFillTheReducedSize};
ghost use Rattle.layout_layers.specs.Theorems.{EntriesAreCounted, NumbersAreBelow, KeyZeroIsNatural, EachNumberIsMet, NumbersRepeat};

pub fn layers()
    ensures { LayerSizesSum × LayersFillTheReducedSize × EntriesAreCounted × NumbersAreBelow × KeyZeroIsNatural
        × EachNumberIsMet × NumbersRepeat }
{
    ()
}

// Lamp strip: it has a code for each entry, and no two layers share a code.
ghost use Rattle.layout_lamps.specs.Theorems.{StripsAreWhole, NoCodeIsShared};

pub fn lamp_strips()
    ensures { StripsAreWhole × NoCodeIsShared }
{
    ()
}

// Name book: what is written is accepted, and looking a key up gives that key's name; a layout's book has P keys. Of any bytes whatever:
// the names of an accepted book cover its text without gap or overlap; a name that is found lies in the text, and is handed back as "the
// part of the caller's book" that holds it, not as equal bytes elsewhere; else 11, 12 or 13 is answered.
ghost use Rattle.book.specs.Theorems.{BooksReadBack, NamesCoverText, FoundLiesInText, PartHoldsName, OnlyPart, LookupRefusals};
ghost use Rattle.layout_book.specs.Theorems.{WrittenBookIsRead};

pub fn name_books()
    ensures { BooksReadBack × WrittenBookIsRead × NamesCoverText × FoundLiesInText × PartHoldsName × OnlyPart × LookupRefusals }
{
    ()
}

// The programs' lines: one that asks for three numbers is read back as these, and "bytes after it" change nothing; an output that goes by
// nothing past a line feed is that of the first line.
ghost use Rattle.line.specs.Theorems.{LinesReadBack, LaterBytesIgnored};
ghost use Rattle.streams.specs.Reading.{FirstLineIsEnough};

pub fn lines()
    ensures { LinesReadBack × LaterBytesIgnored × FirstLineIsEnough }
{
    ()
}

// "The examples marked P form a table proved correct by one theorem about the specification".
ghost use Rattle.layout_lamps.specs.BenchExamples.{BenchExamplesHold};

pub fn bench_examples()
    ensures { BenchExamplesHold }
{
    ()
}

// ---- the requests

// W-201, keys below zero: "Answers for 0 and up are the old ones", of degrees, cycles, spellings and layers. "The rule on equal names
// covers the negative keys too": `demand_three` is about every integer.
ghost use Rattle.pergen.specs.Theorems.{KeysFromZeroOn};
ghost use Rattle.layout_layers.specs.Theorems.{LayersFromZeroOn};

pub fn w_201()
    ensures { KeysFromZeroOn × LayersFromZeroOn }
{
    ()
}

// W-202, a layout from the number of steps alone: the "table of 400 numbers" meets the rule, entry by entry; for each n from 1 on one number
// of steps to the tritave meets it by exact powers, and no other; the second choice is its neighbour, never both. A chain gets the first
// choice wherever it is accepted, else the second, marked, where that is ("only where k gives no layout"), else the first's refusal. The
// report counts what the lists of all divisions have, by the sign of their sharpness. Of a line later bytes change nothing.
ghost use Rattle.edo_tritaves.specs.Theorems.{TableMeetsTheRule, EveryDivisionMeetsTheRule, OneTritave, NeverBoth};
ghost use Rattle.edo_layouts.specs.Theorems.{LayoutsAreChosen};
ghost use Rattle.edo_counts.specs.Theorems.{EveryLayoutIsCounted, SidesAreSharpness};
ghost use Rattle.edo_lines.specs.Theorems.{LaterBytesChangeNothing};

pub fn w_202()
    ensures { TableMeetsTheRule × EveryDivisionMeetsTheRule × OneTritave × NeverBoth × LayoutsAreChosen
        × ((last : ℕ) → EveryLayoutIsCounted last) × SidesAreSharpness × LaterBytesChangeNothing }
{
    ()
}

// W-203, nearest natural and keys in reach: the answer is "the key of 0 to octave − 1 whose name is that bare letter, with any stars, at
// the least distance round the octave", "Of two equally near, the lower number", and there always is one; the keys in reach are those
// within the distance, "each once, rising".
ghost use Rattle.layout_reach.specs.Theorems.{
  DistancesRoundTheOctave,
  BearsIsTheName,
  BareLettersSoundTheirKeys,
  LettersHaveKeys,
  NearestIsAnswered,
  SomeNearest,
  ReachIsExact,
};

pub fn w_203()
    ensures { DistancesRoundTheOctave × BearsIsTheName × BareLettersSoundTheirKeys × LettersHaveKeys × NearestIsAnswered
        × SomeNearest × ReachIsExact }
{
    ()
}

// W-204, two octaves of lamps: where sharpness is not 0 the strip stays, and at sharpness 0 its first half does.
ghost use Rattle.layout_lamps.specs.Theorems.{FirstOctaveStays};

pub fn w_204()
    ensures { FirstOctaveStays }
{
    ()
}

// W-206, home against layer: "The old answers that change are the entry at octave in every equalized strip, and nothing else." The keys
// whole octaves from key 0 are home, and no others.
ghost use Rattle.layout_lamps.specs.Theorems.{HomeChangesOneEntry, OneHome, HomeKeys};

pub fn w_206()
    ensures { HomeChangesOneEntry × OneHome × HomeKeys }
{
    ()
}

// W-207, lamp codes in two bytes: every code is a 16-bit number, so "Question 9 then always has the answer yes"; "Stored one-byte strips
// are converted without loss, and those converted strips go back to the same bytes", any strip and a layout's own, document 01's of one octave
// and the last one alike, which it had where T is at most 202.
ghost use Rattle.layout_lamps.specs.Theorems.{CodesFit, OldStripsConvert, FirstStripsConvert, LampsByCount};
ghost use Rattle.lamp_codes.specs.Theorems.{Partners, RoundTrips};

pub fn w_207()
    ensures { CodesFit × Partners × RoundTrips × OldStripsConvert × FirstStripsConvert × LampsByCount }
{
    ()
}

// W-208, a sheet of keys in one call: "Every record shall hold what single calls would have given, in list order", and its lamp is the
// strip's "at the key's remainder". Its spellings sound its key. "The same key may stand twice. An empty list is fine", and a sheet is
// refused exactly where its layout is.
ghost use Rattle.layout_sheet.specs.Theorems.{
  SheetsHoldSingleCalls,
  LampsAreTheStrips,
  SheetsSoundTheirKeys,
  OnlyTheKeyCounts,
  RefusedByItsLayout,
};

pub fn w_208()
    ensures { SheetsHoldSingleCalls × LampsAreTheStrips × SheetsSoundTheirKeys × OnlyTheKeyCounts × RefusedByItsLayout }
{
    ()
}

// W-209, another letter on key 0: key 0's name is the bare letter at the start; with "the default" start every layout is document 01's.
ghost use Rattle.layout.specs.Theorems.{KeyZeroIsTheStart, DefaultStartStays};

pub fn w_209()
    ensures { KeyZeroIsTheStart × DefaultStartStays }
{
    ()
}

// W-210, Scala keyboard mapping: "what we write reads back as the natural keys", which are the octave's natural ones, rising, and "any
// choice of mapped keys" reads back as that choice. Of any bytes whatever: the keys that are read rise, and are those whose entry is a
// number; "lines that begin with an exclamation mark" change nothing, and nothing counts but the lines.
ghost use Rattle.layout_kbm.specs.Theorems.{NaturalKeysReadBack, NaturalKeysAreExact, NaturalIsItsLayer, KeysAreTheNumbers};
ghost use Rattle.kbm_text.specs.Theorems.{ReadsBack, CommentsSkipped, OnlyLinesCount, LinesAreTheText};

pub fn w_210()
    ensures { NaturalKeysReadBack × NaturalKeysAreExact × NaturalIsItsLayer × ReadsBack × KeysAreTheNumbers × CommentsSkipped
        × OnlyLinesCount × LinesAreTheText }
{
    ()
}

// W-211, fewest signs: "no spelling that sounds the key, with the same stars, has fewer sharps or flats than the one printed. Where two are
// printed, both have that least number." Every spelling that has as few is printed, and whatever sounds the key has the same stars.
ghost use Rattle.layout.specs.FewestSigns.{NamesHaveFewestSigns};

pub fn w_211()
    ensures { NamesHaveFewestSigns }
{
    ()
}

// W-212, how far a retuning moves a note: a move is the distance of the two keys that the spelling sounds. "It never moves more than the
// distance of its place from 0, times the difference of the generators", and back is as far as there. Each entry of the table is the single
// call's answer; "the largest move in it" is in it, and none passes it.
ghost use Rattle.layout_retuning.specs.Theorems.{
  MovesAreDistances,
  MovesAreBounded,
  BackIsAsFar,
  TableIsOfSingleCalls,
  LargestIsTheLargest,
};

pub fn w_212()
    ensures { MovesAreDistances × MovesAreBounded × BackIsAsFar × TableIsOfSingleCalls × LargestIsTheLargest }
{
    ()
}

// W-213, patterns from a fractional generator: for k 65,536ths "every step times 65,536 is exactly the whole-number step by document 01's
// rules", pattern by pattern; the remainder by 1 rounds nothing; every walk ends, and counts grow, up to 65,535.
ghost use Rattle.mos_fractional.specs.Theorems.{WholePartsAreExact, RemainderIsExact, WalkIsWhole, FractionalCountsGrow};

pub fn w_213()
    ensures { WholePartsAreExact × RemainderIsExact × WalkIsWhole × FractionalCountsGrow }
{
    ()
}

// W-214, chain order and board moves: "key i goes to cycle × reduced period + degree", a permutation of the octave, and "The inverse
// restores the list exactly", either way round. Each pattern of each walk has its table of moves, of which "A row's octaves times the
// octave, plus its generators times the generator, is its step" and "The determinant stays −1 all along".
ghost use Rattle.layout_order.specs.Theorems.{ChainOrderIsAPermutation, EntriesGoToTheirPlaces, EachUndoesTheOther, CallsUndoEachOther};
ghost use Rattle.mos_moves.specs.Theorems.{MovesBesidePatterns, MovesReachTheirSteps, MovesStandBesideThePattern};

pub fn w_214()
    ensures { ChainOrderIsAPermutation × EntriesGoToTheirPlaces × EachUndoesTheOther × CallsUndoEachOther
        × MovesBesidePatterns × MovesReachTheirSteps × MovesStandBesideThePattern }
{
    ()
}
