// Questions on layouts. LAYOUT is a chain code and the step counts of octave and tritave, with the chain's own start. Behind each name may
// stand `_from`; then a start follows the tritave.
//
//     layout LAYOUT            scale name, octave, generator, cycles, reduced period, inverse, pattern
//     spelling LAYOUT KEY      as `accidentals`
//     name LAYOUT KEY          a key's name
//     layer LAYOUT KEY         a key's layer, as `key_layers` says it
//     lamp LAYOUT KEY          a key's lamp code
//     names LAYOUT             the names of an octave's keys
//     key_layers LAYOUT        the keys' layers: n, s0, e0, f0 for natural, sharp 0, enharmonic 0, flat 0
//     lamps LAYOUT             the lamp strip
use crate::{patterns, pergens, print};
use answer::Refusal;
use layout::IsomorphicLayout;
use layout_layers::Layer;
use std::io::Stdout;

// The layout, once its questions are answered with yes.
pub(crate) fn made(layout: IsomorphicLayout) -> Result<IsomorphicLayout, Refusal> {
    layout::create_layout_beginning(layout.genchain, layout.octave, layout.tritave, layout.start)
}

pub(crate) fn put_layout(stdout: Stdout, layout: IsomorphicLayout, out: &mut [u8]) {
    print::filled(
        stdout,
        out,
        |out: &mut [u8]| layout_scale_names::get_scale_name(layout, out),
        print::text,
    );
    print::space(stdout);
    print::answer(stdout, layout.pergen(), pergens::put_pergen);
    print::space(stdout);
    print::answer(stdout, layout.mos(), patterns::put_pattern);
}

pub(crate) fn put_names(stdout: Stdout, layout: IsomorphicLayout, out: &mut [u8]) {
    for key in 0..layout.octave {
        if 0 < key {
            print::space(stdout);
        }
        print::filled(
            stdout,
            out,
            |out: &mut [u8]| layout.get_note_name(key as i32, out),
            print::text,
        );
    }
}

// The layers of keys, of so many layers.
pub(crate) fn put_layers(stdout: Stdout, total: Result<u16, Refusal>, layers: &[u16]) {
    for (index, layer) in layers.iter().enumerate() {
        if 0 < index {
            print::space(stdout);
        }
        put_layer(stdout, total, *layer);
    }
}

// One key's layer.
pub(crate) fn put_layer(stdout: Stdout, total: Result<u16, Refusal>, layer: u16) {
    print::answer(stdout, total, |to, layers| {
        put_kind(to, layout_layers::kind(layers, layer))
    });
}

fn put_kind(stdout: Stdout, layer: Layer) {
    match layer {
        Layer::Natural => print::text(stdout, b"n"),
        Layer::Sharp(level) => put_level(stdout, b"s", level),
        Layer::Enharmonic(level) => put_level(stdout, b"e", level),
        Layer::Flat(level) => put_level(stdout, b"f", level),
    }
}

fn put_level(stdout: Stdout, kind: &[u8], level: u16) {
    print::text(stdout, kind);
    print::number(stdout, level);
}
