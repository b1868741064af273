//! Colours, in words.

use crate::out::Out;
use crate::sgr_words::COLORS;
use csicodec_base::ColorSpec;
use std::fmt::Write;

/// A colour: one of the first 16 of the palette by its name, another by its place from 16 to 255, and a true colour by red, green and
/// blue, each 0 to 255.
pub(crate) fn tell_color<W: Write>(out: &mut Out<'_, W>, color: &ColorSpec) {
    match color {
        ColorSpec::PaletteIndex(index) => match COLORS.get(usize::from(*index)) {
            Some(name) => out.put(name),
            None => {
                out.put("palette ");
                out.put_number((*index).into());
            }
        },
        ColorSpec::TrueColor(parts) => {
            let (red, green, blue, alpha) = parts.to_srgb_u8();
            for (ahead, part) in &[("rgb ", red), (",", green), (",", blue)] {
                out.put(ahead);
                out.put_number((*part).into());
            }
            if alpha != 255 {
                out.put(", alpha ");
                out.put_number(alpha.into());
            }
        }
        ColorSpec::Default => out.put("default"),
    }
}
