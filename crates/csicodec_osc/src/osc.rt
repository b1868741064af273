//! What an OSC says.
ghost use Rattle.std.specs.Prelude.{◌≡◌, ◌++◌, [], OnOk, Some, option_map};
ghost use Rattle.csicodec_osc.specs.{Commands.form, Commands.number, Osc.Known, Osc.Says, Osc.is_message, Osc.said, Osc.tail_text, Osc.written};
ghost use Rattle.csicodec_osc.specs.{Private.Reading.behind, Private.Reading.read_body, Private.Reading.read_by};

use crate::asked::Asked;
use crate::body::split_at;
use crate::command::{
    COMMANDS, ColorTable, Command, Dynamic, EditorMark, Folder, Mark, Progress, Title,
};
use crate::fields::OscFields;
use std::alloc::AllocError;

/// What the content of an OSC says. It borrows the texts, as they stand there: nothing is decoded, and no byte is checked but the
/// `;` between them.
#[derive(Clone, Copy, Debug)]
pub enum Osc<'a> {
    /// A title.
    Title(Title, &'a [u8]),
    /// Colours by their indices: fields in pairs, an index and a colour, or a question for it.
    Colors(ColorTable, OscFields<'a>),
    /// A colour, or a question for it; each further field is the next one's of [`Dynamic`].
    Color(Dynamic, OscFields<'a>),
    /// The colours of these indices as they were at first, or all.
    ResetColors(ColorTable, OscFields<'a>),
    /// A colour as it was at first; it has no field that means something.
    ResetColor(Dynamic, OscFields<'a>),
    /// What is printed from now on leads to the address; with none the link ends.
    Link {
        /// Without `;`: `name=value`, with `:` between two. Parts of one link have the same `id`.
        params: &'a [u8],
        /// Where it leads.
        address: &'a [u8],
    },
    /// The clipboard: what is put there, in base64, or a question for it. What is no base64 clears it.
    Clipboard {
        /// Without `;`: letters, as `c` for the clipboard and `p` for the primary selection.
        selection: &'a [u8],
        /// The content.
        content: Asked<'a>,
    },
    /// The current folder.
    Folder(Folder, &'a [u8]),
    /// A mark of a shell.
    Prompt(Mark, OscFields<'a>),
    /// A mark of a shell for VS Code.
    Editor(EditorMark, OscFields<'a>),
    /// Progress; its first field is how much is done ([`OscFields::percent`]), and may be empty.
    Progress(Progress, OscFields<'a>),
    /// The shape of the pointer.
    Pointer(&'a [u8]),
    /// A notification of kitty's.
    KittyNotice {
        /// Without `;`: `name=value`, with `:` between two.
        metadata: &'a [u8],
        /// A title, a text, .., as the metadata says.
        payload: &'a [u8],
    },
    /// A notification with a title.
    TitledNotice {
        /// Without `;`.
        title: &'a [u8],
        /// What it says.
        text: &'a [u8],
    },
    /// A notification. Its first field is neither `4` nor `9`.
    Notice(&'a [u8]),
    /// Any other content.
    Unknown(&'a [u8]),
}

impl<'a> Osc<'a> {
    /// What a content says, the bytes between `ESC ]` and what ends it. Each says one thing (law `exact`).
    pub fn read(content: &'a [u8]) -> Osc<'a>
        ensures { Says content.now (said result) }
    {
        for command in &COMMANDS {
            if let Some(osc) = command.read(content) {
                return osc;
            }
        }
        Osc::Unknown(content)
    }

    /// Appends it, without `ESC ]` and what ends it. On `Err`, out of memory, a part of it may have been appended.
    pub fn write_to(&self, out: &mut Vec<u8>) -> Result<(), AllocError>
        ensures { OnOk result (out.new.items ≡ out.old.items ++ written (said self.now)) }
    {
        let (command, first, second) = match *self {
            Osc::Title(title, text) => (Command::Title(title), Some(text), None),
            Osc::Colors(palette, list) => (Command::Colors(palette), list.text, None),
            Osc::Color(color, list) => (Command::Color(color), list.text, None),
            Osc::ResetColors(palette, list) => (Command::ResetColors(palette), list.text, None),
            Osc::ResetColor(color, list) => (Command::ResetColor(color), list.text, None),
            Osc::Link { params, address } => (Command::Link, Some(params), Some(address)),
            Osc::Clipboard { selection, content } => {
                (
                    Command::Clipboard,
                    Some(selection),
                    Some(content.as_bytes()),
                )
            }
            Osc::Folder(folder, text) => (Command::Folder(folder), Some(text), None),
            Osc::Prompt(mark, list) => (Command::Prompt(mark), list.text, None),
            Osc::Editor(mark, list) => (Command::Editor(mark), list.text, None),
            Osc::Progress(progress, list) => (Command::Progress(progress), list.text, None),
            Osc::Pointer(text) => (Command::Pointer, Some(text), None),
            Osc::KittyNotice { metadata, payload } => {
                (Command::KittyNotice, Some(metadata), Some(payload))
            }
            Osc::TitledNotice { title, text } => (Command::TitledNotice, Some(title), Some(text)),
            Osc::Notice(text) => (Command::Notice, Some(text), None),
            Osc::Unknown(bytes) => return out.extend_from_slice(bytes),
        };
        append(out, command, first, second)
    }
}

impl Command {
    /// What a content says, where it is of this command.
    fn read<'a>(self, content: &'a [u8]) -> Option<Osc<'a>>
        ensures { option_map said result ≡ option_map (Known self) (read_by self content.now) }
    {
        let tail = behind(self.number(), content)?;
        self.with(tail)
    }

    /// The command with what stands behind its number, where that has its form.
    fn with<'a>(self, tail: Option<&'a [u8]>) -> Option<Osc<'a>>
        ensures { option_map said result
            ≡ option_map (Known self) (read_body (form self) (option_map (λ t. t.now) tail.entry)) }
    {
        let list = OscFields { text: tail };
        match self {
            Command::Title(title) => Some(Osc::Title(title, tail?)),
            Command::Colors(palette) => Some(Osc::Colors(palette, list)),
            Command::Color(color) => Some(Osc::Color(color, list)),
            Command::ResetColors(palette) => Some(Osc::ResetColors(palette, list)),
            Command::ResetColor(color) => Some(Osc::ResetColor(color, list)),
            Command::Link => {
                let (params, address) = split_at(tail?, b';')?;
                Some(Osc::Link { params, address })
            }
            Command::Clipboard => {
                let (selection, content) = split_at(tail?, b';')?;
                let content = Asked::of(content);
                Some(Osc::Clipboard { selection, content })
            }
            Command::Folder(folder) => Some(Osc::Folder(folder, tail?)),
            Command::Prompt(mark) => Some(Osc::Prompt(mark, list)),
            Command::Editor(mark) => Some(Osc::Editor(mark, list)),
            Command::Progress(progress) => Some(Osc::Progress(progress, list)),
            Command::Pointer => Some(Osc::Pointer(tail?)),
            Command::KittyNotice => {
                let (metadata, payload) = split_at(tail?, b';')?;
                Some(Osc::KittyNotice { metadata, payload })
            }
            Command::TitledNotice => {
                let (title, text) = split_at(tail?, b';')?;
                Some(Osc::TitledNotice { title, text })
            }
            Command::Notice => {
                let text = tail?;
                is_message(text).then_some(Osc::Notice(text))
            }
        }
    }
}

/// What stands behind a number that a content begins with: nothing, or a `;` and a text.
#[tactic(auto, using(crate::proofs::Reading::no_front, crate::proofs::Reading::front))]
fn behind<'a>(number: &[u8], content: &'a [u8]) -> Option<Option<&'a [u8]>>
    ensures { option_map (λ o. option_map (λ t. t.now) o) result ≡ behind number.now content.now }
{
    tail(content.strip_prefix(number)?)
}

/// Nothing, or a `;` and a text.
fn tail(rest: &[u8]) -> Option<Option<&[u8]>>
    ensures { option_map (λ o. option_map (λ t. t.now) o) result ≡ behind [] rest.now }
{
    match rest {
        [] => Some(None),
        [byte, text @ ..] => (*byte == b';').then_some(Some(text)),
    }
}

/// Whether a text is none of ConEmu's commands for progress and the folder.
fn is_message(text: &[u8]) -> bool
    ensures { result ≡ is_message text.now }
{
    !matches!(text, [b'4' | b'9'] | [b'4' | b'9', b';', ..])
}

/// Appends the number of a command, and those of two texts that there are, each behind a `;`.
fn append(
    out: &mut Vec<u8>,
    command: Command,
    first: Option<&[u8]>,
    second: Option<&[u8]>,
) -> Result<(), AllocError>
    ensures { OnOk result (out.new.items ≡ out.old.items ++ (number command
        ++ (tail_text (option_map (λ t. t.now) first.entry) ++ tail_text (option_map (λ t. t.now) second.entry)))) }
{
    out.extend_from_slice(command.number())?;
    append_tail(out, first)?;
    append_tail(out, second)
}

/// Appends a text behind a `;`, where there is one.
fn append_tail(out: &mut Vec<u8>, text: Option<&[u8]>) -> Result<(), AllocError>
    ensures { OnOk result (out.new.items ≡ out.old.items ++ tail_text (option_map (λ t. t.now) text.entry)) }
{
    let Some(text) = text else {
        return Ok(());
    };
    out.push(b';')?;
    out.extend_from_slice(text)
}
