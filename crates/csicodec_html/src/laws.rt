//! Laws of the definitions. Each is the contract of a function that does nothing.
ghost use Rattle.std.specs.{Prelude.◌≡◌, Prelude.◌<◌, Prelude.◌++◌, Prelude.ℕ, Prelude.List, Prelude.codes, Prelude.encode_utf8_all, Prelude.true};
ghost use Rattle.std.specs.{List.AllByRecursion, List.flat_map};
ghost use Rattle.csicodec_clean.specs.{Cleaned.Strips, Cleaned.longest, Links.is_visible, Page.IsPageWith, Page.IsQuoted, Page.PageWith, Page.chars_of};
ghost use Rattle.csicodec_looks.specs.{Classes.class_name, Classes.true_colors, Look.colors, Look.css, Pieces.IsHarmless, Pieces.escaped};
ghost use Rattle.csicodec_looks.specs.{declared.classes.Class.Class, declared.look.Look.Look, declared.markup.Markup.Markup, declared.palette.Palette.Palette};
ghost use Rattle.csicodec_html.specs.{Sheet.in_pre, MarkupBytes.IsMarkup, declared.sheet.TheConstants.BODY};

pub use csicodec_looks::laws::{
    color_back, colors_settle, each_rule, one_class, same_styles, text_stands_out, xterm_colors,
};

/// The characters of a page are those that the bytes are stripped to: none is lost, and none is added.
pub fn text_stays()
    ensures { (m : Markup) (bytes page text : List ℕ) (p : PageWith m bytes page)
        → Strips longest bytes text → text ≡ encode_utf8_all (chars_of p.pieces) }
{}

/// No byte of an attribute ends it, or begins a tag; a reference is one of the five by which characters are escaped, in an address.
#[tactic(auto, using(csicodec_looks::proofs::Declarations::css_fine, crate::proofs::Marks::all_quoted, csicodec_looks::proofs::Declarations::name_fine, csicodec_looks::proofs::Declarations::true_fine))]
pub fn attributes_end()
    ensures styles { (p : Palette) (l : Look) → AllByRecursion IsHarmless (css p l) }
    ensures addresses { (url : List ℕ) → AllByRecursion (λ b. is_visible b ≡ true) url
        → AllByRecursion IsQuoted (flat_map escaped url) }
    ensures classes { (c : Class) → AllByRecursion IsHarmless (class_name c) }
    ensures colors { (l : Look) → AllByRecursion IsHarmless (true_colors l) }
{}

/// Told of its bytes alone, from the first to the last, a page has no `<` but in tags of spans and, where they pass, of links, in pairs, no
/// `&` in its text but in five references, and no control there but newlines and tabs.
pub fn tags()
    ensures page { (m : Markup) (page : List ℕ) → IsPageWith m page → IsMarkup m.links page }
    ensures made { (m : Markup) (bytes page : List ℕ) → PageWith m bytes page
        → IsMarkup m.links page }
{}

/// Bytes are one page, whatever becomes markup.
pub fn one_page()
    ensures { (m : Markup) (bytes page other : List ℕ) → PageWith m bytes page
        → PageWith m bytes other → page ≡ other }
{}

/// What HTML reads in the `pre` of a page of its own is all of its pieces, with a newline that they begin with.
pub fn newline_stays()
    ensures { (page : List ℕ) → (front : List ℕ) × (inside : List ℕ)
        × (BODY.now ++ page ≡ front ++ (codes "<pre>" ++ inside)) × (in_pre inside ≡ page) }
{}
