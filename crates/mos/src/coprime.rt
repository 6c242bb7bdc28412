// The secondary step that `coprime` ends with. Parts, and no entry points.
ghost use Rattle.std.specs.Prelude.{◌≡◌, ◌<◌};
ghost use Rattle.math.specs.Gcd.{gcd_or_one};
ghost use Rattle.mos.specs.Coprime.{pass, coprime_step};

// One pass: closer to the primary step by the divisor of both, and at least 1 away.
fn pass_of(g: u16, p: u16, s: u16) -> u16
    requires { (1 < g) × (g ≡ gcd_or_one p s) }
    ensures { result ≡ pass g p s }
{
    if s <= p {
        let sharp = (p - s) / g;
        if sharp == 0 { p - 1 } else { p - sharp }
    } else {
        let sharp = (s - p) / g;
        if sharp == 0 { p + 1 } else { p + sharp }
    }
}

// Passes as long as both steps have a common divisor above 1.
pub fn coprime_step(p: u16, s: u16) -> u16
    ensures { result ≡ coprime_step p s }
{
    let mut step = s;
    let mut g = math::gcd_u16(p, step);
    while 1 < g {
        step = pass_of(g, p, step);
        g = math::gcd_u16(p, step);
    }
    step
}
