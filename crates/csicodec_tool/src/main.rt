//! The program `csicodec`: it does what the words of its command line ask for. Without one it writes the normal form of
//! sequences alone, or tells someone at a terminal how it is used.
#![tactic(auto)]

mod front;
mod laws;
mod log;
mod numbered;
mod palette;
mod rewrite;
mod rewritten_cast;
mod shown;
mod spelled;
mod unchanged;

use csicodec_command::{Request, Task, Wrong, asked, refused, text_of, words_of, work_through};
use csicodec_inspect::{Assembly, Cuts, Normaliser, check_inputs, explain_inputs};
use front::{OwnHeading, ends_style};
use palette::palette_asked;
use rewrite::{Job, Page, Work, name_of};
use std::process::ExitCode;
use unchanged::check_cleaned;

/// What a style sheet has to be that a page has in place of its own.
const NO_END: &str = "a file without </style";

/// The style sheet that a run asks for in place of a page's own; the status, if it can't be read, or would end where it stands.
fn style_of(rt: &HostRuntime, run: &Request<'_>) -> Result<Option<String>, u8> {
    match run.value("--style") {
        None => Ok(None),
        Some("none") => Ok(Some(String::new(rt.alloc()))),
        Some(path) => {
            let style = text_of(rt, path)?;
            if ends_style(&style) {
                return Err(refused(rt, Wrong::NotValue("--style", path, NO_END)));
            }
            Ok(Some(style))
        }
    }
}

/// The heading of the page that a run asks for; the status, if that failed.
fn heading_of(rt: &HostRuntime, run: &Request<'_>) -> Result<OwnHeading, u8> {
    let style = style_of(rt, run)?;
    match Vec::from_slice(rt.alloc(), name_of(run)) {
        Ok(name) => Ok(OwnHeading { name, style }),
        Err(_) => Err(refused(rt, Wrong::Memory)),
    }
}

/// Writes the page that a run asks for; the status, if that failed.
fn write_page(rt: &HostRuntime, run: &Request<'_>) -> Result<(), u8> {
    let held = heading_of(rt, run)?;
    let palette = palette_asked(rt.alloc(), run).map_err(|wrong| refused(rt, wrong))?;
    let page = Page::of(run, palette);
    let (fragment, begun) = (run.has("--fragment"), false);
    let heading = held.heading();
    let work = Work::Html {
        heading,
        page,
        fragment,
        begun,
    };
    let text = false;
    work_through(rt, &mut Job { work, text }, run)
}

/// Does the work of a task; the status, if that failed.
fn work_of_task(rt: &HostRuntime, run: &Request<'_>) -> Result<(), u8> {
    let work = match run.task {
        Task::Normal => return work_through(rt, &mut Normaliser, run),
        Task::Check => return check_inputs(rt, run),
        Task::Strip if run.has("--all") => return check_inputs(rt, run),
        Task::Clean if run.has("--check") => return check_cleaned(rt, run),
        Task::Html => return write_page(rt, run),
        Task::Explain => return explain_inputs(rt, run),
        Task::Assemble => return work_through(rt, &mut Assembly, run),
        Task::Cuts => return work_through(rt, &mut Cuts::of(run), run),
        Task::Filter => Work::Filter {
            faithful: run.has("--faithful"),
        },
        Task::Compact => Work::Compact {
            semicolons: run.has("--semicolons"),
        },
        Task::Strip => Work::strip(run),
        Task::Clean => Work::clean(run),
        Task::Screen => Work::screen(run),
    };
    let text = run.has("--text");
    work_through(rt, &mut Job { work, text }, run)
}

/// Does what the words of the command line say; the status, if that failed.
fn started(rt: &HostRuntime) -> Result<(), u8> {
    let words = words_of(rt)?;
    match asked(rt, &words)? {
        Some(run) => work_of_task(rt, &run),
        None => Ok(()),
    }
}

fn main(rt: HostRuntime) -> ExitCode {
    match started(&rt) {
        Ok(()) => ExitCode::SUCCESS,
        Err(status) => ExitCode::from(status),
    }
}
