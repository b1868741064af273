//! The state of an emulator, which the actions of a stream change: a cursor on a page, and a pen. The program reads a
//! stream, and tells both at its end.
ghost use Rattle.std.specs.Prelude.{◌<◌};

use csicodec::{CSI, ColorSpec, CsiParam, Cursor, Sgr};
use csicodec_events::{Event, Events};
use csicodec_terminal::terminal_actions;
use std::alloc::{AllocError, Global};

/// Lines and columns are counted from 0.
#[derive(Debug, Drop)]
struct Screen {
    lines: u32,
    columns: u32,
    line: u32,
    column: u32,
    pen: ColorSpec,
    // Whatever comes, the cursor stays on the page.
    ghost on_page: { (line < lines) × (column < columns) },
}

impl Screen {
    fn go(&mut self, line: u32, column: u32) {
        self.line = line.min(self.lines - 1);
        self.column = column.min(self.columns - 1);
    }

    fn move_by(&mut self, cursor: &Cursor) {
        let (line, column) = (self.line, self.column);
        match cursor {
            Cursor::Up(count) => self.go(line.saturating_sub(*count), column),
            Cursor::Down(count) => self.go(line.saturating_add(*count), column),
            Cursor::Right(count) => self.go(line, column.saturating_add(*count)),
            Cursor::Left(count) => self.go(line, column.saturating_sub(*count)),
            Cursor::Position { line, col } => self.go(line.as_zero_based(), col.as_zero_based()),
            _ => {}
        }
    }

    fn show(&mut self, byte: u8) {
        match byte {
            b'\n' => self.go(self.line.saturating_add(1), self.column),
            b'\r' => self.go(self.line, 0),
            b' '..=b'~' => self.go(self.line, self.column.saturating_add(1)),
            _ => {}
        }
    }

    fn act(&mut self, alloc: Global, params: &[CsiParam], control: char) -> Result<(), AllocError> {
        let actions = terminal_actions(alloc, params, false, control)?;
        for action in &actions {
            match action {
                CSI::Cursor(cursor) => self.move_by(cursor),
                CSI::Sgr(Sgr::Reset) => self.pen = ColorSpec::Default,
                CSI::Sgr(Sgr::Foreground(color)) => self.pen = *color,
                _ => {}
            }
        }
        Ok(())
    }

    fn play(&mut self, alloc: Global, bytes: &[u8]) -> Result<(), AllocError> {
        let mut events = Events::new(65536);
        let mut params = Vec::new(alloc);
        let mut rest = bytes;
        while let Some(told) = events.next(rest, &mut params)? {
            match told.event {
                Event::Text => told.bytes.iter().for_each(|byte| self.show(*byte)),
                Event::Control(byte) => self.show(byte),
                Event::Csi(control) => self.act(alloc, &params, control)?,
                _ => {}
            }
            rest = told.rest;
        }
        Ok(())
    }
}

/// Plays a stream on a page of 24 lines, and tells where the cursor and the pen are then.
pub(crate) fn run(rt: &HostRuntime, bytes: &[u8]) -> anyhow::Result<()> {
    let mut screen = Screen {
        lines: 24,
        columns: 80,
        line: 0,
        column: 0,
        pen: ColorSpec::Default,
    };
    screen.play(rt.alloc(), bytes)?;
    println!(rt; "{screen:?}")?;
    Ok(())
}
