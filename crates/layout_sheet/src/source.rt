// What a sheet is filled from: a part, and no entry point.
ghost use Rattle.std.specs.Prelude.{◌≡◌};
ghost use Rattle.layout.specs.Parts.{layout_in};
ghost use Rattle.layout_layers.specs.KeyLayers.{count_in};

use layout::prepared::Prepared;

// What every record is filled from: the layout, made ready, and how many layer numbers it has.
#[derive(Clone, Copy)]
pub(crate) struct Source {
    pub(crate) prepared: Prepared,
    pub(crate) total: u16,
    pub(crate) ghost counted: { total ≡ count_in (layout_in prepared) },
}
