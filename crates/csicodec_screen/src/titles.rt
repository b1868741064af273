//! What operating system commands do to a screen, and the stack of titles.
ghost use Rattle.std.specs.Prelude.{◌≡◌, ◌==◌, ◌||◌, OnOk, IfOk, if◌then◌else◌};
ghost use Rattle.csicodec_screen.specs.Steps.{behind_semicolon, linked, of_osc, popped, pushed};

use crate::screen::Screen;
use crate::state::Titles;
use csicodec_tokens::TextBuffer;
use std::alloc::{AllocError, Global};

/// The address of a link, behind its parameters and a `;` (OSC 8).
fn behind_semicolon(text: &[u8]) -> &[u8]
    ensures { result.now ≡ behind_semicolon text.now }
{
    let mut rest = text;
    while let [byte, others @ ..] = rest {
        rest = others;
        if *byte == b';' {
            return rest;
        }
    }
    rest
}

/// A copy of a text.
fn copy_text(alloc: Global, text: &[u8]) -> Result<TextBuffer, AllocError>
    ensures { IfOk result (λ copy. copy ≡ text.now) }
{
    let mut bytes = Vec::new(alloc);
    bytes.extend_from_slice(text)?;
    Ok(TextBuffer::of(bytes))
}

/// A copy of titles.
fn copy_titles(alloc: Global, titles: &Titles) -> Result<Titles, AllocError>
    ensures { IfOk result (λ copy. copy ≡ titles.now) }
{
    Ok(Titles {
        window: copy_text(alloc, titles.window.as_slice())?,
        icon: copy_text(alloc, titles.icon.as_slice())?,
    })
}

impl Screen {
    /// XTWINOPS 22: the titles are put on the stack, which has no more than ten.
    pub(crate) fn push_titles(&mut self) -> Result<(), AllocError>
        ensures { OnOk result (self.new ≡ pushed self.old) }
    {
        let alloc = self.grid.allocator();
        let titles = copy_titles(alloc, &self.titles)?;
        self.stack.push(titles)
    }

    /// XTWINOPS 23: titles come back from the stack.
    pub(crate) fn pop_titles(&mut self, icon: bool, window: bool)
        ensures { self.new ≡ popped icon window self.old.stack self.old }
    {
        let Some(titles) = self.stack.pop() else {
            return;
        };
        let Titles {
            window: other_window,
            icon: other_icon,
        } = titles;
        if window {
            self.titles.window = other_window;
        }
        if icon {
            self.titles.icon = other_icon;
        }
    }

    /// A link of this address is drawn from here on, or none.
    fn link(&mut self, address: &[u8]) -> Result<(), AllocError>
        ensures { OnOk result (self.new ≡ linked address.now self.old) }
    {
        match address {
            [] => self.pen.link = 0,
            [_, ..] => {
                let alloc = self.grid.allocator();
                let kept = copy_text(alloc, address)?;
                self.pen.link = self.links.add(kept)?;
            }
        }
        Ok(())
    }

    /// OSC 0, 1 and 2 are titles, and 8 a link.
    pub(crate) fn command(&mut self, number: u32, text: &[u8]) -> Result<(), AllocError>
        ensures { OnOk result (self.new ≡ of_osc number text.now self.old) }
    {
        let alloc = self.grid.allocator();
        match number {
            0 => {
                self.titles.window = copy_text(alloc, text)?;
                self.titles.icon = copy_text(alloc, text)?;
            }
            1 => self.titles.icon = copy_text(alloc, text)?,
            2 => self.titles.window = copy_text(alloc, text)?,
            8 => return self.link(behind_semicolon(text)),
            _ => (),
        }
        Ok(())
    }
}
