// What every entry point answers: a value, or the number of the first question that it says no to.
//
// Holds thirteen questions of document 01 ("Questions before an answer") and eight of document 02 as one enum with their numbers,
// with three more about typed names and the board, and the answers that several crates share. Number 9 stays reserved: its answer is always yes since lamp codes have two bytes
// (document 02, W-207), so no call asks it.
// specs/: an outcome and how questions are asked (Outcome), the numbers (Refusals), what a lent slice holds
// after an answer (Lent). Nothing is assumed.
#![tactic(auto)]

ghost use Rattle.std.specs.Prelude.{◌≡◌, ◌<◌, ◌≤◌, MatchResult};
ghost use Rattle.answer.specs.Refusals.{number_of};
ghost use Rattle.answer.specs.declared.Refusal.TheVariants.{Room};

// The question that was answered with no, by its number.
#[derive(Clone, Copy, Debug, PartialEq, Eq)]
pub enum Refusal {
    // Is the chain code 0 to 5?
    Chain = 1,
    // Is the octave, the period or the denominator at least 1?
    Period = 2,
    // Does the chain's generator come out whole and not negative?
    Generator = 3,
    // Does the walk meet a pattern with as many steps as the chain has letters?
    Pattern = 4,
    // Is a free format's symbol count at least 1?
    Symbols = 5,
    // Is its origin below that count?
    Origin = 6,
    // Are both products and the size of a given step pattern at most 65,535?
    Size = 7,
    // Is the size after `coprime` at most 65,535?
    CoprimeSize = 8,
    // Does the output slice hold the whole output?
    Room = 10,
    // Does a book hold its count, at least 1, and that many pairs?
    BookPairs = 11,
    // Do the pairs cover the text?
    BookCover = 12,
    // Is the key below the book's count?
    BookKey = 13,
    // Is the program's line well formed?
    Line = 14,
    // Is the octave divided into 1 to 400 steps? (document 02)
    Division = 15,
    // Is the letter's place below the number of letters? (document 02)
    Letter = 16,
    // Has each lamp code of a strip a code of the other width that it is converted to? (document 02)
    Code = 17,
    // Is the start below the number of letters? (document 02)
    Start = 18,
    // Has a keyboard mapping the lines that are due, each of a form that is due? (document 02)
    MappingLines = 19,
    // Are its numbers the ones that are due? (document 02)
    MappingNumbers = 20,
    // Are the stars below the cycles? (document 02)
    Stars = 21,
    // Is the fractional generator a number, and not infinite? (document 02)
    FractionalGenerator = 22,
    // Is the text a spelling's, or that of two spellings as a name holds them?
    NoteName = 23,
    // Do the two spellings in it sound one key?
    TwoKeys = 24,
    // Are a board's columns and rows 1 to 64?
    BoardSize = 25,
}

impl Refusal {
    // The question's number.
    pub fn number(self) -> u8
        ensures { result ≡ number_of self }
    {
        self as u8
    }
}

// Question 10, of a slice with room for so many elements.
pub fn asked_room(room: usize, output: usize) -> Result<(), Refusal>
    ensures { MatchResult result (λ _. output ≤ room) (λ q. (q ≡ Room) × (room < output)) }
{
    if room < output {
        return Err(Refusal::Room);
    }
    Ok(())
}
