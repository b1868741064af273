//! A driver's stream, from a reader to a writer.
use crate::transform::Transform;
use csicodec_spans::{Driver, Visit};
use std::alloc::AllocError;

impl<V: Drop, M: Visit<V> + Drop> Transform for Driver<V, M> {
    ghost use Rattle.std.specs.Prelude.{⊤};
    ghost use Rattle.csicodec_spans.specs.Visits.{Ends, Pushes, Rests};

    ghost stands = { λ _. ⊤ };

    ghost passes = { Pushes M.does };

    ghost rests = { Rests M.does };

    ghost ends = { Ends M.does };

    fn take(&mut self, bytes: &[u8], out: &mut Vec<u8>) -> Result<(), AllocError> {
        self.push(bytes, out)
    }

    fn pause(&mut self, out: &mut Vec<u8>) -> Result<(), AllocError> {
        Driver::pause(self, out)
    }

    fn end(&mut self, out: &mut Vec<u8>) -> Result<(), AllocError> {
        Driver::pause(self, out)?;
        self.append_collected(out)
    }
}
