// Scala keyboard mappings: the file of a layout, how long it is, and which keys such a file maps.
ghost use Rattle.std.specs.Prelude.{◌≡◌};
ghost use Rattle.answer.specs.Lent.{counted};
ghost use Rattle.layout_kbm.specs.Mappings.{get_kbm, get_mapped_keys};
ghost use Rattle.vetchnoon_codes.specs.Codes.{code_of, Fills};
ghost use Rattle.vetchnoon.specs.Written.{layout};

use crate::parts;

// How many bytes the keyboard mapping of a layout has (1, 2, 3, 4, 18).
#[unsafe(no_mangle)]
#[tactic(auto, using(layout_kbm::proofs::Natural::files_fit, vetchnoon_codes::proofs::Coding::small_counted))]
pub extern "C" fn vn_kbm_len(chain: u16, octave: u16, tritave: u16, start: u16) -> i64
    ensures { result ≡ code_of (counted (get_kbm (layout chain octave tritave start))) }
{
    let layout = parts::layout_of(chain, octave, tritave, start);
    vetchnoon_codes::count(layout_kbm::kbm_len(layout))
}

// The keyboard mapping of a layout, which maps its natural keys (1, 2, 3, 4, 18, 10).
#[unsafe(no_mangle)]
pub extern "C" fn vn_kbm(chain: u16, octave: u16, tritave: u16, start: u16, out: &mut [u8]) -> i64
    ensures { Fills (get_kbm (layout chain octave tritave start)) result out.old out.new }
{
    let layout = parts::layout_of(chain, octave, tritave, start);
    vetchnoon_codes::count(layout_kbm::write_kbm(layout, out))
}

// The keys that a keyboard mapping for a layout maps, rising (1, 2, 3, 4, 18, 19, 20, 10).
#[unsafe(no_mangle)]
pub extern "C" fn vn_kbm_read(
    chain: u16,
    octave: u16,
    tritave: u16,
    start: u16,
    text: &[u8],
    out: &mut [u16],
) -> i64
    ensures { Fills (get_mapped_keys (layout chain octave tritave start) text.now) result out.old out.new }
{
    let layout = parts::layout_of(chain, octave, tritave, start);
    vetchnoon_codes::count(layout_kbm::read_kbm(layout, text, out))
}
