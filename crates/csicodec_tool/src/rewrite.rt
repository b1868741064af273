//! What `csicodec filter`, `compact`, `strip`, `clean`, `html` and `screen` make of a stream: with `filter` each control sequence in its
//! normal form and all else as it came, with `compact` in a shorter spelling; with `strip` the plain text alone, with `clean` that and
//! its styles; with `html` those as a page; with `screen` what a terminal shows behind it.
ghost use Rattle.std.specs.{Prelude.◌≡◌, Prelude.◌++◌, Prelude.[], Prelude.ℕ, Prelude.List, Prelude.false, Prelude.IfOk, Prelude.IfSome, Prelude.OnErr, Prelude.OnOk};
ghost use Rattle.std.specs.{Prelude.option_map, Io.KnownBytes.Appends, Io.KnownBytes.Consumes, Io.KnownBytes.IsAtEnd};
ghost use Rattle.csicodec_transform.specs.Transform.{Begins, Sends, Transforms};
ghost use Rattle.csicodec_tool.specs.Writes.{Heads, IsHeaded, JobSteps, PageText, Wrote, WroteBehind, begun_of, makes_none};
ghost use Rattle.csicodec_tool.specs.{Numbered.NumberedAs, Spelled.SpelledAs, Spelled.SpelledSure};
ghost use Rattle.csicodec_command.specs.Recorded.{recorded};
ghost use Rattle.csicodec_inspect.specs.Sent.{FrontsOf, IsWrittenBy};

use crate::front::{Heading, page_front};
use crate::log::Log;
use crate::numbered::Numberer;
use crate::rewritten_cast::{Rewriter, rewrite_cast};
use crate::shown::{Display, show_all};
use crate::spelled::transform_as;
use csicodec_clean::{Cleaner, Depth, Dropped, Kept, Passing};
use csicodec_command::{Failure, Recorded, Request, ScreenSize, Worker, is_cast};
use csicodec_compact::{Compact, Compactor, compact_all};
use csicodec_filter::{Faithful, Filter, NormalForm, filter_all};
use csicodec_html::{BEHIND, Markup, Palette, SpanWriter, UNNAMED};
use csicodec_inspect::{check_cast, check_stream};
use csicodec_lines::Lines;
use csicodec_overwrite::{Marking, Overwriter};
use csicodec_spans::LIMIT;
use csicodec_transform::{RunError, Transform, send};
use std::alloc::{AllocError, Global};
use std::io::{BufRead, Read, Write};

/// What is made of one input after the other. Where it is to be visible, a character that isn't seen is spelled.
#[derive(Drop)]
pub enum Work<'a> {
    Filter {
        faithful: bool,
    },
    Compact {
        semicolons: bool,
    },
    Strip {
        lines: bool,
        visible: bool,
    },
    /// Each line as it stands when it ends, with these of its styles.
    Overwrite {
        styles: Option<Passing>,
        visible: bool,
    },
    /// Each line by itself, as it stands when it ends, with these of its styles.
    Log {
        styles: Option<Passing>,
        visible: bool,
    },
    /// Nothing: it is told where an input is plain text no more, or plain text that is all seen.
    Check {
        visible: bool,
    },
    Clean {
        passing: Passing,
        lines: bool,
        visible: bool,
    },
    /// A page with this heading, which ends behind the last input if it has begun.
    Html {
        heading: Heading<'a>,
        page: Page,
        fragment: bool,
        begun: bool,
    },
    /// What a screen shows behind each input, which begins with a new one.
    Screen {
        display: Display,
    },
}

/// The size of a screen where none is asked for, as that of the VT100.
const USUAL_SIZE: ScreenSize = ScreenSize {
    rows: 24,
    columns: 80,
};

/// How a page is made.
#[derive(Clone, Copy)]
pub struct Page {
    pub markup: Markup,
    pub overwrite: bool,
    pub visible: bool,
    /// Whether each line has an anchor with its number.
    pub ids: bool,
}

impl Page {
    /// A page with this palette, as the options of `html` want it.
    pub fn of(run: &Request<'_>, palette: Palette) -> Page {
        Page {
            markup: Markup {
                links: run.links,
                classes: run.has("--classes"),
                palette,
            },
            overwrite: run.overwrites(),
            visible: run.has("--visible"),
            ids: run.has("--ids"),
        }
    }
}

/// The rule of `compact`.
fn compact(alloc: Global, semicolons: bool) -> Compact {
    if semicolons {
        Compact::with_semicolons(alloc)
    } else {
        Compact::new(alloc)
    }
}

/// The name of a page: the title that is asked for, or else that of its first file, without its folder, and of standard input what it is.
pub fn name_of<'a>(run: &Request<'a>) -> &'a [u8] {
    if let Some(title) = run.value("--title") {
        return title.as_bytes();
    }
    match run.files.first() {
        None | Some(&"-") => UNNAMED,
        Some(file) => file.rsplit('/').next().unwrap_or(file).as_bytes(),
    }
}

/// Writes the page of a stream that a transform makes, with anchors if lines have them.
fn write_lines<T: Transform + Drop, R: Read, W: Write>(
    alloc: Global,
    page: Page,
    transform: T,
    input: &mut R,
    output: &mut W,
) -> Result<(), RunError>
    requires stands { T.stands transform }
    requires begun { T.passes transform [] [] transform }
    ensures ok { OnOk result ((bytes : List ℕ) × (text : List ℕ)
        × Consumes (R.remaining input.old) (R.remaining input.new) bytes
        × IsAtEnd (R.remaining input.new)
        × SpelledAs page.visible (NumberedAs page.ids (Transforms T.passes T.ends transform)) bytes text
        × Appends (W.contents output.old) (W.contents output.new) text) }
    ensures front { OnErr result ((bytes : List ℕ) × (more : List ℕ) × (sent : List ℕ)
        × Consumes (R.remaining input.old) (R.remaining input.new) (bytes ++ more)
        × Begins (SpelledSure page.visible (NumberedAs page.ids (Sends T.passes transform)))
        (SpelledAs page.visible (NumberedAs page.ids (Transforms T.passes T.ends transform)))
        ((more ≡ []) × IsAtEnd (R.remaining input.new)) bytes sent
        × Appends (W.contents output.old) (W.contents output.new) sent) }
{
    if page.ids {
        let numberer = Numberer::new(alloc, transform);
        return transform_as(alloc, page.visible, numberer, input, output);
    }
    transform_as(alloc, page.visible, transform, input, output)
}

/// Writes the page of a stream.
fn write_page<R: Read, W: Write>(
    alloc: Global,
    page: Page,
    input: &mut R,
    output: &mut W,
) -> Result<(), RunError>
    ensures { IsWrittenBy (PageText page) (FrontsOf (PageText page)) result
        (R.remaining input.old) (W.contents output.old) (W.contents output.new) }
{
    if page.overwrite {
        let lines = Overwriter::writing(alloc, Marking::Page(page.markup));
        return write_lines(alloc, page, lines, input, output);
    }
    let cleaner = Cleaner::new(alloc, SpanWriter::new(alloc, page.markup));
    write_lines(alloc, page, cleaner, input, output)
}

/// Whether there are files, and the names of all say that they are recordings of asciinema.
fn are_recordings(files: &[&str]) -> bool {
    for file in files {
        if !is_cast(file) {
            return false;
        }
    }
    !files.is_empty()
}

impl<'a> Work<'a> {
    /// Plain text, as the options of `strip` want it.
    pub fn strip(run: &Request<'a>) -> Work<'a> {
        let visible = run.has("--visible");
        if run.has("--check") {
            Work::Check {
                visible: run.value("--check").is_some(),
            }
        } else if run.overwrites() {
            let styles = None;
            Work::Overwrite { styles, visible }
        } else if run.has("--log") {
            let styles = None;
            Work::Log { styles, visible }
        } else {
            let lines = run.has("--lines");
            Work::Strip { lines, visible }
        }
    }

    /// The same with its styles, as those of `clean` do.
    pub fn clean(run: &Request<'a>) -> Work<'a> {
        let depth = match run.value("--colors") {
            Some("256") => Depth::Palette,
            Some("16") => Depth::Ansi,
            _ => Depth::Full,
        };
        let passing = Passing {
            depth,
            links: run.links,
            restores: true,
        };
        let styles = Some(passing);
        let visible = run.has("--visible");
        if run.overwrites() {
            return Work::Overwrite { styles, visible };
        }
        if run.has("--log") {
            return Work::Log { styles, visible };
        }
        Work::Clean {
            passing,
            lines: run.has("--lines"),
            visible,
        }
    }

    /// What a screen shows, as those of `screen` do.
    pub fn screen(run: &Request<'a>) -> Work<'a> {
        let marking = if run.has("--color") {
            Marking::Styled
        } else {
            Marking::Plain
        };
        Work::Screen {
            display: Display {
                size: run.size.unwrap_or(USUAL_SIZE),
                marking,
                scrollback: run.has("--scrollback"),
                raw: run.has("--raw") || are_recordings(&run.files),
            },
        }
    }

    /// Whether what isn't seen is spelled.
    pub fn is_visible(&self) -> bool {
        match *self {
            Work::Strip { visible, .. }
            | Work::Overwrite { visible, .. }
            | Work::Log { visible, .. }
            | Work::Clean { visible, .. } => visible,
            Work::Html { page, .. } => page.visible,
            Work::Filter { .. } | Work::Compact { .. } | Work::Check { .. } | Work::Screen { .. } =>
                false,
        }
    }

    /// What the data of a recording go through, if a recording is made of it.
    pub fn stage(&self, alloc: Global) -> Result<Option<Box<Rewriter>>, AllocError>
        ensures staged { IfOk result (λ stage. IfSome stage (λ _. makes_none self.now ≡ false)) }
        ensures failed { OnErr result (makes_none self.now ≡ false) }
    {
        let stage = match self {
            Work::Filter { faithful: true } => {
                Rewriter::Faithful(Filter::new(alloc, LIMIT, Faithful::new(alloc)))
            }
            Work::Filter { .. } => {
                Rewriter::Normal(Filter::new(alloc, LIMIT, NormalForm::new(alloc)))
            }
            Work::Compact { semicolons } => {
                Rewriter::Short(Compactor::new(alloc, LIMIT, compact(alloc, *semicolons)))
            }
            Work::Strip { lines: true, .. } => Rewriter::PlainLines(Lines::stripped(alloc)),
            Work::Strip { .. } => Rewriter::Plain(Cleaner::new(alloc, Dropped)),
            Work::Overwrite { styles, .. } => Rewriter::Logged(Log::new(alloc, *styles, false)),
            Work::Log { styles, .. } => Rewriter::Logged(Log::new(alloc, *styles, true)),
            Work::Clean {
                passing,
                lines: true,
                ..
            } => Rewriter::StyledLines(Lines::cleaned(alloc, *passing)),
            Work::Clean { passing, .. } => {
                Rewriter::Styled(Cleaner::new(alloc, Kept::letting(alloc, *passing)))
            }
            Work::Check { .. } | Work::Html { .. } | Work::Screen { .. } => return Ok(None),
        };
        Ok(Some(Box::new(alloc, stage)?))
    }

    /// What stands ahead of the next input: of a page that hasn't begun its front, unless it is a fragment.
    fn front_of(&self, alloc: Global) -> Result<Vec<u8>, AllocError>
        ensures { IfOk result (λ text. Heads self.now text.items) }
    {
        match *self {
            Work::Html {
                heading,
                page,
                fragment: false,
                begun: false,
            } => page_front(alloc, &page, &heading),
            _ => Ok(Vec::new(alloc)),
        }
    }

    /// A page that is no fragment has begun.
    fn mark_begun(&mut self)
        ensures { self.new ≡ begun_of self.old }
    {
        if let Work::Html {
            fragment: false,
            begun,
            ..
        } = self
        {
            *begun = true;
        }
    }

    /// Writes what stands ahead of the first input.
    fn begin<W: Write>(&mut self, alloc: Global, output: &mut W) -> Result<(), RunError>
        ensures { IsHeaded self.old result self.new
            (W.contents output.old) (W.contents output.new) }
    {
        let front = self.front_of(alloc);
        self.mark_begun();
        match front {
            Ok(text) => send(output, &text),
            Err(_) => Err(RunError::Memory),
        }
    }

    /// Writes what becomes of a stream; nothing where it is only checked.
    fn write_stream<R: Read, W: Write>(
        &self,
        alloc: Global,
        input: &mut R,
        output: &mut W,
    ) -> Result<(), RunError>
        ensures { Wrote self.now result (R.remaining input.old)
            (W.contents output.old) (W.contents output.new) }
    {
        match *self {
            Work::Filter { faithful: true } => {
                filter_all(alloc, LIMIT, Faithful::new(alloc), input, output)
            }
            Work::Filter { .. } => filter_all(alloc, LIMIT, NormalForm::new(alloc), input, output),
            Work::Compact { semicolons } => {
                compact_all(alloc, LIMIT, compact(alloc, semicolons), input, output)
            }
            Work::Check { .. } => Ok(()),
            Work::Strip {
                lines: true,
                visible,
            } => transform_as(alloc, visible, Lines::stripped(alloc), input, output),
            Work::Strip { visible, .. } => {
                transform_as(alloc, visible, Cleaner::new(alloc, Dropped), input, output)
            }
            Work::Overwrite { styles, visible } => {
                let line = Log::new(alloc, styles, false);
                transform_as(alloc, visible, line, input, output)
            }
            Work::Log { styles, visible } => {
                let log = Log::new(alloc, styles, true);
                transform_as(alloc, visible, log, input, output)
            }
            Work::Clean {
                passing,
                lines: true,
                visible,
            } => {
                let lines = Lines::cleaned(alloc, passing);
                transform_as(alloc, visible, lines, input, output)
            }
            Work::Clean {
                passing,
                visible,
                ..
            } => {
                let cleaner = Cleaner::new(alloc, Kept::letting(alloc, passing));
                transform_as(alloc, visible, cleaner, input, output)
            }
            Work::Html { page, .. } => write_page(alloc, page, input, output),
            Work::Screen { display } => show_all(alloc, display, input, output),
        }
    }

    /// Writes what becomes of an input.
    fn write<R: Read, W: Write>(
        &mut self,
        alloc: Global,
        input: &mut R,
        output: &mut W,
    ) -> Result<(), Failure>
        ensures { WroteBehind self.old result self.new
            (R.remaining input.old) (W.contents output.old) (W.contents output.new) }
    {
        self.begin(alloc, output)?;
        match *self {
            Work::Check { visible } => check_stream(alloc, visible, input),
            _ => Ok(self.write_stream(alloc, input, output)?),
        }
    }

    /// Writes what becomes of the data of a recording, and no recording.
    #[tactic(auto, using(crate::proofs::Written::check_wrote))]
    fn write_cast<R: BufRead, W: Write>(
        &mut self,
        alloc: Global,
        input: &mut R,
        output: &mut W,
    ) -> Result<(), Failure>
        ensures { WroteBehind self.old result self.new (option_map recorded (R.remaining input.old))
            (W.contents output.old) (W.contents output.new) }
    {
        if let Work::Check { visible } = *self {
            return check_cast(alloc, visible, input);
        }
        let mut written = Recorded::new(alloc, input);
        let ended = self.write(alloc, &mut written, output);
        written.outcome(ended)
    }
}

/// What is made of inputs, and whether of a recording comes what its programs wrote, and no recording.
#[derive(Drop)]
pub struct Job<'a> {
    pub work: Work<'a>,
    pub text: bool,
}

impl<'a> Worker for Job<'a> {
    ghost steps = { JobSteps };

    fn begin<W: Write>(&mut self, _name: &str, _output: &mut W) -> Result<(), Failure> {
        Ok(())
    }

    fn read<R: Read, W: Write>(
        &mut self,
        alloc: Global,
        input: &mut R,
        output: &mut W,
    ) -> Result<(), Failure> {
        self.work.write(alloc, input, output)
    }

    fn read_cast<R: BufRead, W: Write>(
        &mut self,
        alloc: Global,
        input: &mut R,
        output: &mut W,
    ) -> Result<(), Failure> {
        if self.text {
            return self.work.write_cast(alloc, input, output);
        }
        match self.work.stage(alloc)? {
            Some(mut stage) => {
                let visible = self.work.is_visible();
                rewrite_cast(alloc, &mut stage, visible, input, output)
            }
            None => self.work.write_cast(alloc, input, output),
        }
    }

    fn end<W: Write>(&mut self, output: &mut W) -> Result<(), Failure> {
        match &self.work {
            Work::Html { begun: true, .. } => match send(output, BEHIND.as_bytes()) {
                Ok(()) => Ok(()),
                Err(error) => Err(Failure::Run(error)),
            },
            _ => Ok(()),
        }
    }
}
