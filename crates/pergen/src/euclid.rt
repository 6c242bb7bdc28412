// What follows from a period and a generator: parts, and no entry points. Callers have asked question 2.
ghost use Rattle.std.specs.Prelude.{◌≡◌, ◌%◌, ◌≤◌, ◌<◌};
ghost use Rattle.pergen.specs.Parts.{StandsAt, BezoutOf, forward, solved_of};

// The greatest common divisor, the period divided by it, and how many generators leave the divisor on division by the period:
// so many backward where `negative` is set.
//
// The flag stays beside its number, here and below: `BezoutOf` and `Going` of specs/ name it, and each turn of the loop changes it.
#[derive(Clone, Copy)]
struct Bezout {
    gcd: u16,
    cofactor: u16,
    coefficient: u16,
    negative: bool,
}

// Where the extended Euclid stands: two remainders, and how many generators leave each on division by the period. The first is left
// backward where `negative` is set, otherwise the second.
#[derive(Clone, Copy)]
pub struct Remainders {
    pub first: u16,
    pub second: u16,
    pub first_by: u16,
    pub second_by: u16,
    pub negative: bool,
}

// The extended Euclid of a period and a generator, on from where it stands. The coefficients' signs alternate, so their sizes are carried
// and one flag. c1 r0 + c0 r1 stays the period, and so the last c1 is the period divided by the greatest common divisor.
fn extended_gcd(period: u16, generator: u16, from: Remainders) -> Bezout
    requires { StandsAt period generator from }
    ensures { BezoutOf period generator result }
{
    let mut r0 = from.first as u32;
    let mut r1 = from.second as u32;
    let mut c0 = from.first_by as u32;
    let mut c1 = from.second_by as u32;
    let mut negative = from.negative;
    while r1 != 0 {
        let turns = r0 / r1;
        let r2 = r0 % r1;
        let c2 = c0 + turns * c1;
        r0 = r1;
        r1 = r2;
        c0 = c1;
        c1 = c2;
        negative = !negative;
    }
    Bezout {
        gcd: r0 as u16,
        cofactor: c1 as u16,
        coefficient: c0 as u16,
        negative,
    }
}

// The remainder of a number up to the reduced period.
fn within(number: u16, reduced: u16) -> u16
    requires { number ≤ reduced }
    ensures { result ≡ number % reduced }
{
    if number == reduced { 0 } else { number }
}

// The coefficient counted forward, below the reduced period.
fn inverse_from(found: Bezout) -> u16
    requires { found.coefficient ≤ found.cofactor }
    ensures { result ≡ forward found % found.cofactor }
{
    let reduced = found.cofactor;
    if found.negative {
        return within(reduced - found.coefficient, reduced);
    }
    within(found.coefficient, reduced)
}

// The numbers that follow from a period and a generator.
#[derive(Clone, Copy)]
pub struct Solved {
    pub num_cycles: u16,
    pub reduced_period: u16,
    pub generator_inverse: u16,
}

// These numbers, by the Euclid on from where it stands.
pub fn solve_from(period: u16, generator: u16, from: Remainders) -> Solved
    requires { (0 < period) × StandsAt period generator from }
    ensures { result ≡ solved_of period generator }
{
    let found = extended_gcd(period, generator, from);
    Solved {
        num_cycles: found.gcd,
        reduced_period: found.cofactor,
        generator_inverse: inverse_from(found),
    }
}

// These numbers, by the Euclid from the beginning: no generator leaves the period, one leaves itself.
pub fn solve(period: u16, generator: u16) -> Solved
    requires { 0 < period }
    ensures { result ≡ solved_of period generator }
{
    solve_from(
        period,
        generator,
        Remainders {
            first: period,
            second: generator,
            first_by: 0,
            second_by: 1,
            negative: true,
        },
    )
}
