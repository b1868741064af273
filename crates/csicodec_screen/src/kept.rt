//! What a screen keeps beside what it shows: rows that left at the top, addresses of links, and titles on a stack.
ghost use Rattle.std.specs.Prelude.{◌≡◌, ◌+◌, ◌++◌, ◌∷◌, IfOk, MatchOption, OnOk, [], length, take};
ghost use Rattle.csicodec_screen.specs.{Steps.most_titles, Lists.onto};

use crate::rows::Row;
use crate::state::Titles;
use csicodec_tokens::TextBuffer;
use std::alloc::{AllocError, Global};
use std::collections::VecDeque;
use std::marker::Model;

/// Copies of so many rows come in front, the last of them first.
fn keep_rows(back: &mut VecDeque<Row>, leaving: &[Row], count: usize) -> Result<(), AllocError>
    ensures { OnOk result (back.new.items ≡ onto (take count leaving.now) back.old.items) }
{
    for i in 0..count.min(leaving.len()) {
        let row = leaving[i].copy()?;
        back.push_front(row)?;
    }
    Ok(())
}

/// Rows that left at the top. Contracts see them as a list, the latest first.
#[derive(Drop)]
pub struct Back {
    rows: VecDeque<Row>,
}

impl Model for Back {
    ghost use Rattle.std.specs.Prelude.{List};
    ghost use Rattle.csicodec_screen.specs.declared.rows.Row.{Row as RowOf};

    ghost Value = { List RowOf };

    ghost view = { λ b. b.rows.items };
}

impl Back {
    /// None.
    pub(crate) fn none(alloc: Global) -> Back
        ensures { result ≡ [] }
    {
        Back {
            rows: VecDeque::new(alloc),
        }
    }

    /// All of them, the latest first.
    pub(crate) fn as_deque(&self) -> &VecDeque<Row>
        ensures { result.now.items ≡ self.now }
    {
        &self.rows
    }

    /// None is kept any more.
    pub(crate) fn clear(&mut self)
        ensures { self.new ≡ [] }
    {
        self.rows.clear();
    }

    /// So many of these rows are kept too, the last of them as the latest, and only as many as there is room for.
    pub(crate) fn keep(
        &mut self,
        leaving: &[Row],
        count: usize,
        room: usize,
    ) -> Result<(), AllocError>
        ensures { OnOk result (self.new ≡ take room (onto (take count leaving.now) self.old)) }
    {
        keep_rows(&mut self.rows, leaving, count)?;
        self.rows.truncate(room);
        Ok(())
    }
}

/// Addresses of links, in the order in which they came. Contracts see them as a list.
#[derive(Drop)]
pub struct Links {
    addresses: Vec<TextBuffer>,
}

impl Model for Links {
    ghost use Rattle.std.specs.Prelude.{List, ℕ};

    ghost Value = { List (List ℕ) };

    ghost view = { λ l. l.addresses.items };
}

impl Links {
    /// None.
    pub(crate) fn none(alloc: Global) -> Links
        ensures { result ≡ [] }
    {
        Links {
            addresses: Vec::new(alloc),
        }
    }

    /// One more, and its number, from 1 on. An `Err` is out of memory, or of numbers.
    pub(crate) fn add(&mut self, address: TextBuffer) -> Result<u32, AllocError>
        ensures kept { OnOk result (self.new ≡ self.old ++ (address ∷ [])) }
        ensures number { IfOk result (λ number. number ≡ length self.old + 1) }
    {
        let count = self.addresses.len();
        if count >= 0xffff_ffff {
            return Err(AllocError);
        }
        self.addresses.push(address)?;
        Ok(count as u32 + 1)
    }
}

/// Titles that were put aside. Contracts see them as a list, the latest first.
#[derive(Drop)]
pub struct TitleStack {
    titles: Vec<Titles>,
}

impl Model for TitleStack {
    ghost use Rattle.std.specs.Prelude.{List};
    ghost use Rattle.csicodec_screen.specs.declared.state.Titles.{Titles as TitlesOf};

    ghost Value = { List TitlesOf };

    ghost view = { λ t. t.titles.items };
}

impl TitleStack {
    /// None.
    pub(crate) fn none(alloc: Global) -> TitleStack
        ensures { result ≡ [] }
    {
        TitleStack {
            titles: Vec::new(alloc),
        }
    }

    /// These are the latest, and no more than ten are kept.
    pub(crate) fn push(&mut self, titles: Titles) -> Result<(), AllocError>
        ensures { OnOk result (self.new ≡ take most_titles (titles ∷ self.old)) }
    {
        if self.titles.insert(0, titles).is_err() {
            return Err(AllocError);
        }
        self.titles.truncate(10);
        Ok(())
    }

    /// The latest ones, which are gone from it.
    pub(crate) fn pop(&mut self) -> Option<Titles>
        ensures { MatchOption result ((self.old ≡ []) × (self.new ≡ [])) (λ titles. self.old ≡ titles ∷ self.new) }
    {
        if self.titles.is_empty() {
            return None;
        }
        Some(self.titles.remove(0))
    }
}
