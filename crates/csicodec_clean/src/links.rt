//! Links, read byte by byte.
ghost use Rattle.std.specs.Prelude.{◌≡◌, ◌++◌, ℕ, List, Bool, true, [], OnOk, IfOk};
ghost use Rattle.csicodec_clean.specs.Links.{admitted, all_behind, behind, come, ends_at, is_linked, is_visible, link_text, link_texts, links_at, links_in, start};

use crate::addresses::led;
use std::alloc::{AllocError, Global};

/// How far a control string is that of a link, `ESC ] 8 ; PARAMS ; URL` and then ST or BEL.
#[derive(Clone, Copy)]
pub enum LinkState {
    /// It is none.
    Outside,
    /// Behind an ESC that may open it.
    Escape,
    /// Behind `]`.
    Opened,
    /// Behind `8`.
    Eight,
    /// In its parameters.
    Params,
    /// In where it leads.
    Url,
    /// Behind the ESC of ST.
    Ending,
}

/// The most bytes that the parameters of a link have.
const LONGEST_PARAMS: usize = 256;

/// The most bytes that the URL of a link has.
const LONGEST_URL: usize = 2083;

/// A visible character of ASCII: no space, no control, and no part of a longer character.
fn is_visible(byte: u8) -> bool
    ensures { result ≡ is_visible byte }
{
    33 <= byte && byte <= 126
}

/// Whether the byte ends a link, which is then what has come of it.
pub fn ends_link(place: LinkState, byte: u8) -> bool
    ensures { result ≡ ends_at place byte }
{
    matches!(
        (place, byte),
        (LinkState::Url, 0x07) | (LinkState::Ending, b'\\')
    )
}

/// Reads links, byte by byte, where bytes of control strings come in any cut.
#[derive(Drop)]
pub struct LinkReader {
    /// How far the control string that is open is that of a link.
    pub place: LinkState,
    /// What has come of its parameters.
    pub params: Vec<u8>,
    /// What has come of its URL.
    pub url: Vec<u8>,
}

impl LinkReader {
    /// Where no control string is open.
    pub fn new(alloc: Global) -> LinkReader
        ensures { come result ≡ start }
    {
        LinkReader {
            place: LinkState::Outside,
            params: Vec::new(alloc),
            url: Vec::new(alloc),
        }
    }

    /// Goes back to where no control string is open.
    pub(crate) fn clear(&mut self)
        ensures { come self.new ≡ start }
    {
        self.place = LinkState::Outside;
        self.params.clear();
        self.url.clear();
    }

    /// Takes the next byte of a control string.
    pub fn take(&mut self, byte: u8) -> Result<(), AllocError>
        ensures { OnOk result (come self.new ≡ behind (come self.old) byte) }
    {
        match self.place {
            LinkState::Escape | LinkState::Ending if byte == b']' => {
                self.place = LinkState::Opened;
            }
            LinkState::Opened if byte == b'8' => self.place = LinkState::Eight,
            LinkState::Eight if byte == b';' => {
                self.params.clear();
                self.place = LinkState::Params;
            }
            LinkState::Params if byte == b';' => {
                self.url.clear();
                self.place = LinkState::Url;
            }
            LinkState::Params if is_visible(byte) && self.params.len() < LONGEST_PARAMS => {
                self.params.push(byte)?;
            }
            LinkState::Url if is_visible(byte) && self.url.len() < LONGEST_URL => {
                self.url.push(byte)?;
            }
            LinkState::Url if byte == 0x1b => self.place = LinkState::Ending,
            LinkState::Escape | LinkState::Ending | LinkState::Url => {
                self.place = LinkState::Outside;
            }
            _ if byte == 0x1b => self.place = LinkState::Escape,
            _ => self.place = LinkState::Outside,
        }
        Ok(())
    }

    /// Appends what passes of the link, in its normal form.
    fn append(&self, out: &mut Vec<u8>) -> Result<(), AllocError>
        ensures { OnOk result
            (out.new.items ≡ out.old.items ++ link_text (admitted (come self.now).address)) }
    {
        out.extend_from_slice(b"\x1b]8;")?;
        out.extend_from_slice(&self.params)?;
        out.push(b';')?;
        out.extend_from_slice(led(&self.url))?;
        out.extend_from_slice(b"\x1b\\")
    }

    /// Takes the next byte of a control string, appends what passes of the link that is over with it, and answers whether one is open then.
    pub(crate) fn append_byte(
        &mut self,
        byte: u8,
        linked: bool,
        out: &mut Vec<u8>,
    ) -> Result<bool, AllocError>
        ensures text { OnOk result
            (out.new.items ≡ out.old.items ++ link_texts (links_at true (come self.old) byte)) }
        ensures linked { IfOk result
            (λ after. after ≡ is_linked linked (links_at true (come self.old) byte)) }
        ensures begun { OnOk result (come self.new ≡ behind (come self.old) byte) }
    {
        let mut linked = linked;
        if ends_link(self.place, byte) {
            self.append(out)?;
            linked = !led(&self.url).is_empty();
        }
        self.take(byte)?;
        Ok(linked)
    }
}
