//! Laws of the definitions. Each is the contract of a function that does nothing.
ghost use Rattle.std.specs.Prelude.{◌≡◌, ◌<◌, ◌++◌, ℕ, Bool, None, Some, false, true, ◌≤◌, List};
ghost use Rattle.csicodec_looks.specs.Classes.{IsClass, class_if, class_name, ground_color, ground_part, lines_class, lines_color, text_color, text_part, weight_class};
ghost use Rattle.csicodec_looks.specs.Sheet.{IsIn, class_rule, class_rules, color_of_lines, declares, kind_of_lines, line_rule, said};
ghost use Rattle.csicodec_looks.specs.{Xterm.palette, Xterm.rgb, Contrast.dark, Contrast.is_near, Contrast.known, Contrast.white, Given.given_color, Look.colors};
ghost use Rattle.csicodec_looks.specs.{Look.has_line, Look.hex_color, Look.settled, Look.slant, Look.weight, Palette.color_at, Palette.has_pairs, Palette.xterm};
ghost use Rattle.csicodec_looks.specs.{declared.classes.Class.Class, declared.look.Look.Look, declared.palette.Palette.Palette, declared.pen.Pen.Pen};
ghost use Rattle.csicodec_looks.specs.{declared.step.Step.Step, Line.blank, Line.do_all, Line.size, Line.most};
ghost use Rattle.csicodec_names.specs.{declared.color.Intensity.Intensity, declared.color.SrgbaTuple.SrgbaTuple, declared.color.Underline.Underline};
ghost use Rattle.csicodec_looks.specs.declared.classes.Class.TheVariants as class;
ghost use Rattle.csicodec_looks.specs.declared.classes.Layer.TheVariants as part;

/// The classes of a look, and the style beside them, declare what its style does, which has the three parts of `text-decoration` in one.
#[tactic(auto, using(crate::proofs::Declarations::weights, crate::proofs::Declarations::slants, crate::proofs::Declarations::kinds, crate::proofs::Declarations::of_line, crate::proofs::Declarations::of_colors))]
pub fn same_styles()
    ensures weight { (p : Palette) (i : Intensity) → declares p (weight_class i) ≡ weight i }
    ensures slant { (p : Palette) (b : Bool) → declares p (class_if b class.Italic) ≡ slant b }
    ensures kind { (p : Palette) (u : Underline) → declares p (lines_class u) ≡ kind_of_lines u }
    ensures line { (p : Palette) (l : Look)
        → said p part.Line None (lines_color l) ≡ color_of_lines p (lines_color l) }
    ensures colors { (p : Palette) (l : Look)
        → said p (text_part l) (class_if l.inverse class.TextAsGround) (text_color l)
        ++ said p (ground_part l) (class_if l.inverse class.GroundAsText) (ground_color l)
        ≡ colors p l }
{}

/// Each class has its rule in the sheet, and so have lines by all their classes together, which says where they are.
#[tactic(auto, using(crate::proofs::Declarations::ruled, crate::proofs::Declarations::lines_ruled))]
pub fn each_rule()
    ensures classes { (p : Palette) (c : Class) → IsClass c → IsIn (class_rule p c) (class_rules p) }
    ensures lines { (p : Palette) (l : Look) → has_line l ≡ true → IsIn (line_rule l) (class_rules p) }
{}

/// Two classes with one name are one.
#[tactic(auto, using(crate::proofs::Declarations::one_class))]
pub fn one_class()
    ensures { (c d : Class) → IsClass c → IsClass d → class_name c ≡ class_name d → c ≡ d }
{}

/// A colour that is written is read back.
#[tactic(auto, using(crate::proofs::Settled::color_back))]
pub fn color_back()
    ensures { (red green blue : ℕ) → red < 256 → green < 256 → blue < 256
        → given_color (hex_color (rgb red green blue)) ≡ Some (rgb red green blue) }
{}

/// The palette of xterm has the colours of its places.
#[tactic(auto, using(crate::proofs::Settled::xterm_colors))]
pub fn xterm_colors()
    ensures { (place : ℕ) → color_at xterm place ≡ Some (palette place) }
{}

/// Where nobody chose colours, text on a known ground is known and isn't near to it, and known text on the page's own ground isn't near to
/// that of a light page, nor to that of a dark one.
pub fn text_stands_out()
    ensures known { (p : Palette) (l : Look) (below : SrgbaTuple) → has_pairs p ≡ true
        → known (ground_color (settled p l)) ≡ Some below → (text : SrgbaTuple)
        × (known (text_color (settled p l)) ≡ Some text) × (is_near text below ≡ false) }
    ensures own { (p : Palette) (l : Look) (text : SrgbaTuple) → has_pairs p ≡ true
        → known (ground_color (settled p l)) ≡ None → known (text_color (settled p l)) ≡ Some text
        → (is_near text white ≡ false) × (is_near text dark ≡ false) }
{}

/// Only the colours of text and of its ground are settled, those that somebody chose aren't, and once is enough.
#[tactic(auto, using(crate::proofs::Settled::others_stay, crate::proofs::Settled::chosen_stay, crate::proofs::Settled::once))]
pub fn colors_settle()
    ensures others { (p : Palette) (l : Look) → settled p l
        ≡ record l { foreground = (settled p l).foreground; background = (settled p l).background } }
    ensures chosen { (p : Palette) (l : Look) → has_pairs p ≡ false → settled p l ≡ l }
    ensures again { (p : Palette) (l : Look) → settled p (settled p l) ≡ settled p l }
{}

/// The line that isn't over never holds more than 65,536 cells, whatever comes.
#[tactic(auto, using(crate::proofs::Rows::all_size))]
pub fn bounded()
    ensures { (pen : Pen) (steps : List Step) → size (do_all most pen steps blank).line ≤ most }
{}
