//! The path of characters.
ghost use Rattle.csicodec_actions.specs.{Table.Path.written_path, Written.written_text, Kinds.Path, Kinds.read, Kinds.path_number, Common.Some, Common.length};
ghost use Rattle.csicodec_actions.specs.{Common.pos, Common.CharacterPath};
ghost use Rattle.std.specs.Prelude.{◌≡◌, ◌≤◌, ◌++◌, ◌<◌, ◌↔◌};

use csicodec_base::Text;

/// SCP (ECMA-48, 8.3.111): the path of characters.
#[derive(Clone, Copy, Debug, PartialEq, Eq)]
pub enum CharacterPath {
    /// As the terminal has it: 0, or no number, of freedesktop's recommendation on bidirectional text; ECMA-48 has 1 and 2 alone.
    ImplementationDefault = 0,
    /// From left to right, or from top to bottom.
    LeftToRightOrTopToBottom = 1,
    /// From right to left, or from bottom to top.
    RightToLeftOrBottomToTop = 2,
}

impl CharacterPath {
    /// The path of 0, 1 or 2, and none for another number.
    #[tactic(auto, unfolding(crate::specs::Kinds::read))]
    pub fn from_i64(number: i64) -> Option<Self>
        ensures each { (path : CharacterPath) → (result ≡ Some path)
            ↔ (number ≡ pos (path_number path)) }
        ensures read { result ≡ read Path number }
    {
        match number {
            0 => Some(CharacterPath::ImplementationDefault),
            1 => Some(CharacterPath::LeftToRightOrTopToBottom),
            2 => Some(CharacterPath::RightToLeftOrBottomToTop),
            _ => None,
        }
    }

    /// The number of this path, 0 to 2.
    pub fn number(&self) -> u8
        ensures value { result ≡ path_number self.now }
        ensures short { result < 10 }
    {
        *self as u8
    }
}

/// Appends a path and its effect, as far as they aren't 0, and the final byte: 24 bytes at most. The text holds 5 at most
/// before.
pub fn write_path(text: &mut Text, path: &CharacterPath, effect: i64)
    requires room { length text.old ≤ 5 }
    ensures { text.new ≡ text.old ++ written_text (written_path path.now effect) }
{
    let number = path.number();
    if effect != 0 {
        text.push_u8(number);
        text.push(b';');
        text.push_i64(effect);
    } else if number != 0 {
        text.push_u8(number);
    }
    text.push_str(" k");
}
