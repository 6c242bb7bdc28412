// The layout that a line asks for: a part of the programs, and of what they print.
ghost use Rattle.std.specs.Prelude.{◌≡◌};
ghost use Rattle.layout.specs.Parts.{found_outcome};
ghost use Rattle.line.specs.LineLayouts.{line_layout};

use answer::Refusal;
use layout::parts::Found;

// The layout that a line asks for (14, 1, 2, 3, 4).
pub fn ask_line(line: &[u8]) -> Result<Found, Refusal>
    ensures { found_outcome result ≡ line_layout line.now }
{
    let asked = crate::parse(line)?;
    layout::parts::ask(layout::default_layout(asked.genchain, asked.octave, asked.tritave))
}
