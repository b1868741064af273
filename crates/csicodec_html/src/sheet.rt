//! A page of its own: what stands ahead of its pieces, with its style sheet, and behind them.
ghost use Rattle.std.specs.Prelude.{◌≡◌, ◌++◌, ℕ, IfOk, List};
ghost use Rattle.csicodec_html.specs.Sheet.{IsTitle};
ghost use Rattle.csicodec_looks.specs.Sheet.{sheet};

use csicodec_clean::strip;
use csicodec_looks::{Markup, append_sheet, append_text};
use std::alloc::{AllocError, Global};

/// What a page is called whose text comes from no file.
pub const UNNAMED: &[u8] = b"Terminal output";

/// What stands ahead of the title of a page.
pub const HEAD: &str = "<!DOCTYPE html>
<html lang=\"en\">
<head>
<meta charset=\"utf-8\">
<meta name=\"viewport\" content=\"width=device-width,initial-scale=1\">
<meta name=\"color-scheme\" content=\"light dark\">
<title>";

/// What stands between that and what its style sheet has of the markup. In a browser that doesn't know pairs of colours, from before 2024,
/// text in them is plain.
pub const STYLE: &str = "</title>
<style>
pre{margin:0;padding:1rem 1.25rem;font:.875rem ui-monospace,Menlo,Consolas,\"DejaVu Sans Mono\",\"Liberation Mono\",monospace;}
@supports not (color:light-dark(red,red)){[style*=light-dark]{color:CanvasText!important;background-color:Canvas!important;}}
body{margin:0;";

/// What stands between that and its pieces. HTML drops a newline directly behind `<pre>` (HTML, 13.2.6.4.7), so one of its own stands
/// there, and those of the pieces are read.
pub const BODY: &str = "</style>
</head>
<body>
<pre>
";

/// What stands behind them.
pub const BEHIND: &str = "</pre>
</body>
</html>
";

/// The title of a page by its name: what `strip` leaves of that, escaped. No tag begins in it.
pub fn title(alloc: Global, name: &[u8]) -> Result<Vec<u8>, AllocError>
    ensures { IfOk result (λ out. IsTitle name.now out.items) }
{
    let text = strip(alloc, name)?;
    let mut out = Vec::new(alloc);
    append_text(&text, &mut out)?;
    Ok(out)
}

/// What stands ahead of the pieces of a page of this name of their own: a head, with the name as its title, and a style sheet. With
/// classes that has 42,000 bytes.
pub fn front(alloc: Global, markup: Markup, name: &[u8]) -> Result<Vec<u8>, AllocError>
    ensures { IfOk result (λ out. (title : List ℕ) × IsTitle name.now title
        × (out.items ≡ HEAD.now ++ (title ++ (STYLE.now ++ (sheet markup ++ BODY.now))))) }
{
    let title = title(alloc, name)?;
    let mut out = Vec::new(alloc);
    out.extend_from_slice(HEAD.as_bytes())?;
    out.extend_from_slice(&title)?;
    out.extend_from_slice(STYLE.as_bytes())?;
    append_sheet(&markup, &mut out)?;
    out.extend_from_slice(BODY.as_bytes())?;
    Ok(out)
}
