// The six chains (document 01, "The six chains").
ghost use Rattle.std.specs.Prelude.{◌≡◌};
ghost use Rattle.genchain.specs.Answers.{start_outcome};
ghost use Rattle.vetchnoon_codes.specs.Codes.{code_of, Fills};
ghost use Rattle.vetchnoon.specs.Written.{letters_output, name_output};

// A chain's letters in order, as code points (1, 10).
#[unsafe(no_mangle)]
#[tactic(auto, using(crate::proofs::Outputs::letters_in_room))]
pub extern "C" fn vn_chain_letters(chain: u16, out: &mut [u16]) -> i64
    ensures { Fills (letters_output chain) result out.old out.new }
{
    vetchnoon_codes::count(genchain::letters(chain, out))
}

// A chain's name (1, 10).
#[unsafe(no_mangle)]
#[tactic(auto, using(crate::proofs::Outputs::name_in_room))]
pub extern "C" fn vn_chain_name(chain: u16, out: &mut [u8]) -> i64
    ensures { Fills (name_output chain) result out.old out.new }
{
    vetchnoon_codes::count(genchain::name(chain, out))
}

// The place of key 0's letter among a chain's letters, from 0 (1).
#[unsafe(no_mangle)]
pub extern "C" fn vn_start(chain: u16) -> i64
    ensures { result ≡ code_of (start_outcome chain) }
{
    vetchnoon_codes::number(genchain::start(chain))
}
