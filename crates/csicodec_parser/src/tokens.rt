//! The tokens of a slice.
ghost use Rattle.csicodec_parser.specs.Common.{ℕ, length, drop};
ghost use Rattle.std.specs.Prelude.{◌≡◌, ◌+◌, ◌*◌, ◌≤◌, ◌++◌};

use crate::look::Look;
use csicodec_base::CsiParam;
use csicodec_tokens::Count;
use std::alloc::AllocError;
use std::marker::Model;

/// The tokens of a slice, of which some are passed. It takes no memory, and copies none.
#[derive(Drop)]
pub struct Tokens<'a> {
    list: &'a [CsiParam],
    rest: &'a [CsiParam],
    count: Count,
}

impl<'a> Model for Tokens<'a> {
    ghost use Rattle.std.specs.Prelude.{◌≡◌, ◌-◌, drop, length};
    ghost use Rattle.csicodec_parser.specs.Place.{Place};

    ghost Value = { Place };

    ghost view = { λ t. record { list = t.list.now; passed = length t.list.now - length t.rest.now; looks = t.count.total } };

    ghost invariant = { λ t. t.rest.now ≡ drop (length t.list.now - length t.rest.now) t.list.now };
}

impl<'a> Tokens<'a> {
    /// The tokens of the list, of which none is passed and none was looked at.
    pub fn new(list: &'a [CsiParam]) -> Tokens<'a>
        ensures { result ≡ record { list = list.now; passed = 0; looks = 0 } }
    {
        Tokens {
            list,
            rest: list,
            count: Count::new(),
        }
    }

    /// What is unread. It may be kept for as long as the list.
    pub fn rest(&self) -> &'a [CsiParam]
        ensures { result.now ≡ drop self.now.passed self.now.list }
    {
        self.rest
    }
}

impl Look for Tokens<'_> {
    ghost tokens = { λ t. t.list };

    ghost passed = { λ t. t.passed };

    ghost looks = { λ t. t.looks };

    fn len(&self) -> usize {
        self.rest.len()
    }

    fn get(&mut self, i: usize) -> Option<CsiParam> {
        self.count.charge(1, 1);
        self.rest.get(i).copied()
    }

    fn pass(&mut self, k: usize) {
        self.count.charge(1, k);
        self.rest = &self.rest[k..];
    }

    fn lend(&mut self, from: usize, k: usize) -> &[CsiParam] {
        self.count.charge(8, k);
        &self.rest[from..from + k]
    }

    fn copy_to(&mut self, out: &mut Vec<CsiParam>) -> Result<(), AllocError> {
        self.count.charge(1, self.rest.len());
        out.extend_from_slice(self.rest)
    }
}
