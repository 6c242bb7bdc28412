// The records that a call's numbers make.
ghost use Rattle.std.specs.Prelude.{◌≡◌};
ghost use Rattle.mos.specs.Patterns.{mos};
ghost use Rattle.vetchnoon.specs.Written.{layout, retuning};

use layout::IsomorphicLayout;
use layout_retuning::Retuning;
use mos::Mos;

pub(crate) fn layout_of(chain: u16, octave: u16, tritave: u16, start: u16) -> IsomorphicLayout
    ensures { result ≡ layout chain octave tritave start }
{
    IsomorphicLayout {
        genchain: chain,
        octave,
        tritave,
        start,
    }
}

pub(crate) fn mos_of(
    primary_count: u16,
    secondary_count: u16,
    primary_step: u16,
    secondary_step: u16,
) -> Mos
    ensures { result ≡ mos primary_count secondary_count primary_step secondary_step }
{
    Mos {
        num_primary_steps: primary_count,
        num_secondary_steps: secondary_count,
        primary_step,
        secondary_step,
    }
}

pub(crate) fn retuning_of(
    chain: u16,
    octave: u16,
    start: u16,
    from_tritave: u16,
    to_tritave: u16,
) -> Retuning
    ensures { result ≡ retuning chain octave start from_tritave to_tritave }
{
    Retuning {
        genchain: chain,
        octave,
        start,
        from_tritave,
        to_tritave,
    }
}
