// Stored lamp strips: from codes of one byte to codes of two, and back.
ghost use Rattle.lamp_codes.specs.Answers.{get_widened, get_narrowed};
ghost use Rattle.vetchnoon_codes.specs.Codes.{Fills};

// A strip of one-byte codes in codes of two bytes (17, 10).
#[unsafe(no_mangle)]
pub extern "C" fn vn_widen_strip(strip: &[u8], out: &mut [u16]) -> i64
    ensures { Fills (get_widened strip.now) result out.old out.new }
{
    vetchnoon_codes::count(lamp_codes::widen_strip(strip, out))
}

// A converted strip in the one-byte codes that it was stored with (17, 10).
#[unsafe(no_mangle)]
pub extern "C" fn vn_narrow_strip(strip: &[u16], out: &mut [u8]) -> i64
    ensures { Fills (get_narrowed strip.now) result out.old out.new }
{
    vetchnoon_codes::count(lamp_codes::narrow_strip(strip, out))
}
