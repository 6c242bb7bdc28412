// Pergens and spellings, after the first part of src/pergen.rs of the original.
//
// Holds the pergen (a period and a generator), degree and cycle of a key, the spellings of a key in a free format, and the place and the
// key of a spelling, printed or not (document 01, "Pergen and spelling").
// specs/: Pergen and Spelling define them, Answers says what each call answers, Theorems what is proved of them.
// A record holds only what a caller chose; each call asks its questions of it again, so a made-up record is refused.
// Every entry point answers every input, exactly. The modules hold parts, of which some ask for more: `euclid` what follows from period
// and generator, `stepping` the walk from key to key, `spellings` the two spellings of a degree, `sounding` what a spelling sounds.
// Nothing is assumed.
#![tactic(auto)]

pub mod euclid;
pub mod sounding;
pub mod spellings;
pub mod stepping;

ghost use Rattle.std.specs.Prelude.{◌≡◌, ◌<◌, IfOk, MatchResult};
ghost use Rattle.answer.specs.Outcome.{given};
ghost use Rattle.answer.specs.declared.Refusal.TheVariants.{Period};
ghost use Rattle.answer.specs.Refusals.{outcome_of};
ghost use Rattle.pergen.specs.Pergen.{cycles, reduced, inverse, generation_of};
ghost use Rattle.pergen.specs.Spelling.{signs_of, stars_of, sharp_spelling, flat_spelling};
ghost use Rattle.pergen.specs.Answers.{ask_format, new_outcome, of_pergen, get_generation, get_accidentals, get_place, get_sounded_key};

use answer::Refusal;

// A period and a generator, in steps of the tuning.
#[derive(Clone, Copy)]
pub struct PerGen {
    pub period: u16,
    pub generator: u16,
}

// How many generators lead to a key, and its cycle.
#[derive(Clone, Copy)]
pub struct Generation {
    pub cycle: Option<u16>,
    pub degree: u16,
}

// How many symbols are named along the chain, and the place of key 0's symbol among them.
#[derive(Clone, Copy)]
pub struct AccidentalsFormat {
    pub num_symbols: u16,
    pub genchain_origin: u16,
}

// A key's sharp and its flat spelling.
#[derive(Clone, Copy)]
pub struct Accidentals {
    pub cycle: Option<u16>,
    pub sharp_index: u16,
    pub sharp_count: u16,
    pub flat_index: u16,
    pub flat_count: u16,
}

// A number of sharps or of flats, 0 included.
#[derive(Clone, Copy)]
pub enum Signs {
    Sharps(u32),
    Flats(u32),
}

// Any spelling, printed or not: a symbol's index along the chain, signs, and stars.
#[derive(Clone, Copy)]
pub struct Spelling {
    pub index: u16,
    pub signs: Signs,
    pub stars: u16,
}

impl PerGen {
    // Question 2.
    fn asked(self) -> Result<(), Refusal>
        ensures { MatchResult result (λ _. 0 < self.period) (λ q. (q ≡ Period) × (self.period ≡ 0)) }
    {
        if self.period == 0 {
            return Err(Refusal::Period);
        }
        Ok(())
    }

    // The pergen of a period and a generator, which may exceed the period (2).
    pub fn new(period: u16, generator: u16) -> Result<PerGen, Refusal>
        ensures { outcome_of result ≡ new_outcome period generator }
    {
        let pergen = PerGen { period, generator };
        pergen.asked()?;
        Ok(pergen)
    }

    // The period (2).
    pub fn period(self) -> Result<u16, Refusal>
        ensures { outcome_of result ≡ of_pergen self self.period }
    {
        self.asked()?;
        Ok(self.period)
    }

    // The generator (2).
    pub fn generator(self) -> Result<u16, Refusal>
        ensures { outcome_of result ≡ of_pergen self self.generator }
    {
        self.asked()?;
        Ok(self.generator)
    }

    // How many chains it takes to reach every key (2).
    pub fn num_cycles(self) -> Result<u16, Refusal>
        ensures { outcome_of result ≡ of_pergen self (cycles self.period self.generator) }
    {
        self.asked()?;
        Ok(math::gcd_u16(self.period, self.generator))
    }

    // How many keys each chain has (2).
    pub fn reduced_period(self) -> Result<u16, Refusal>
        ensures { outcome_of result ≡ of_pergen self (reduced self.period self.generator) }
    {
        self.asked()?;
        Ok(self.period / math::gcd_u16(self.period, self.generator))
    }

    // How many generators make one step within a chain (2).
    pub fn generator_inverse(self) -> Result<u16, Refusal>
        ensures { outcome_of result ≡ of_pergen self (inverse self.period self.generator) }
    {
        self.asked()?;
        let solved = euclid::solve(self.period, self.generator);
        Ok(solved.generator_inverse)
    }

    // Degree and cycle of a key, below 0 too: the number is first brought round the period (2).
    pub fn get_generation(self, key: i32) -> Result<Generation, Refusal>
        ensures { outcome_of result ≡ get_generation self key }
    {
        self.asked()?;
        let index = math::parts::rem_u16(key, self.period);
        let solved = euclid::solve(self.period, self.generator);
        let found = stepping::key_at(solved, index as u32);
        Ok(stepping::generation(solved, found))
    }

    // The sharp and the flat spelling of a key, below 0 too: the number is first brought round the period (2, 5, 6).
    pub fn get_accidentals(
        self,
        format: AccidentalsFormat,
        key: i32,
    ) -> Result<Accidentals, Refusal>
        ensures { outcome_of result ≡ get_accidentals self format key }
    {
        self.asked()?;
        format.asked()?;
        let in_period = math::parts::rem_u16(key, self.period);
        let solved = euclid::solve(self.period, self.generator);
        let found = stepping::key_at(solved, in_period as u32);
        let generation = stepping::generation(solved, found);
        Ok(spellings::accidentals(solved.reduced_period, format, generation))
    }

    // The key of the octave that a spelling sounds, whatever its index and stars (2, 5, 6).
    pub fn get_sounded_key(
        self,
        format: AccidentalsFormat,
        spelling: Spelling,
    ) -> Result<u16, Refusal>
        ensures { outcome_of result ≡ get_sounded_key self format spelling }
    {
        self.asked()?;
        format.asked()?;
        let sides = sounding::sides_of(format, spelling);
        let stars = spelling.stars;
        Ok(sounding::sounded(self, sides, stars))
    }
}

impl AccidentalsFormat {
    // Questions 5 and 6.
    fn asked(self) -> Result<(), Refusal>
        ensures answered { outcome_of result ≡ ask_format self (given tt) }
        ensures below { IfOk result (λ _. self.genchain_origin < self.num_symbols) }
    {
        if self.num_symbols == 0 {
            return Err(Refusal::Symbols);
        }
        if self.num_symbols <= self.genchain_origin {
            return Err(Refusal::Origin);
        }
        Ok(())
    }

    // The place of a spelling on the chain, counted from key 0's, whatever its index (5, 6).
    pub fn get_place(self, spelling: Spelling) -> Result<i64, Refusal>
        ensures { outcome_of result ≡ get_place self spelling }
    {
        self.asked()?;
        Ok(sounding::difference(sounding::sides_of(self, spelling)))
    }
}

impl Signs {
    // As many sharps as a number above 0 says, as many flats as one below; 0 is no sign. (`From` would hide in `from` that its sign counts.)
    pub fn from_number(number: i32) -> Signs
        ensures { result ≡ signs_of number }
    {
        if number < 0 {
            return Signs::Flats(number.unsigned_abs());
        }
        Signs::Sharps(number as u32)
    }
}

impl Accidentals {
    // The spelling with sharps. This and the next differ in the fields and the sign that they read: one function of both would branch on which.
    #[tactic(auto, unfolding(crate::specs::Spelling::sharp_spelling))]
    pub fn sharp_spelling(self) -> Spelling
        ensures { result ≡ sharp_spelling self }
    {
        let cycle = self.cycle;
        Spelling {
            index: self.sharp_index,
            signs: Signs::Sharps(self.sharp_count as u32),
            stars: cycle.unwrap_or(0),
        }
    }

    // The spelling with flats.
    #[tactic(auto, unfolding(crate::specs::Spelling::flat_spelling))]
    pub fn flat_spelling(self) -> Spelling
        ensures { result ≡ flat_spelling self }
    {
        let cycle = self.cycle;
        Spelling {
            index: self.flat_index,
            signs: Signs::Flats(self.flat_count as u32),
            stars: cycle.unwrap_or(0),
        }
    }
}
