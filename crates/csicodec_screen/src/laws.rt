//! Laws of the screen. Each is the contract of a function that does nothing.
ghost use Rattle.std.specs.Prelude.{◌≡◌, ◌<◌, ℕ, Bool};
ghost use Rattle.csicodec_looks.specs.declared.marking.Marking.TheVariants.{Plain};
ghost use Rattle.csicodec_screen.specs.{Screen.IsFormed, Screen.fresh, declared.screen.Screen.Screen, Views.IsText, Views.view};

/// A screen on which nothing was written is formed.
pub fn formed()
    ensures { (rows columns room : ℕ) → 0 < rows → 0 < columns → IsFormed (fresh rows columns room) }
{}

/// The text of a screen, whatever it holds, has no control but newlines.
pub fn plain()
    ensures { (scrollback : Bool) (s : Screen) → IsText (view Plain scrollback s) }
{}
