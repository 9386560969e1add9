//! Text that is put in long pieces.
ghost use Rattle.std.specs.Prelude.{◌≡◌, [], ◌++◌, OnOk, IsTrue, false};
ghost use Rattle.ice_edge.specs.Puts.{IsPut};
ghost use Rattle.ice_migrate.specs.Gathering.{IsGathered};

use arrayvec::ArrayVec;
use ice_edge::{Sink, SinkFault};
use std::marker::Model;

/// Text that is gathered, and put once it is long. A contract sees what is not put yet.
#[derive(Drop)]
pub(crate) struct Gathered {
    bytes: ArrayVec<u8, 65536>,
}

impl Model for Gathered {
    ghost use Rattle.std.specs.Prelude.{List, ℕ};

    ghost Value = { List ℕ };

    ghost view = { λ a. a.bytes.items };
}

impl Gathered {
    /// Nothing yet.
    pub(crate) fn new() -> Self
        ensures { result ≡ [] }
    {
        Gathered {
            bytes: ArrayVec::new(),
        }
    }

    /// Gathers a text behind what is gathered, which is put first where there is no room for both.
    /// A text that is too long to be gathered is put at once.
    pub(crate) fn put<K: Sink>(&mut self, text: &[u8], out: &mut K) -> Result<(), SinkFault>
        ensures { IsGathered self.new (self.old ++ text.now) result
            (K.taken out.old) (K.taken out.new) }
    {
        if self.gather(text) {
            return Ok(());
        }
        self.flush(out)?;
        if self.gather(text) {
            return Ok(());
        }
        out.put(text)
    }

    /// Puts what is gathered, where there is some.
    pub(crate) fn flush<K: Sink>(&mut self, out: &mut K) -> Result<(), SinkFault>
        ensures put { IsPut self.old result (K.taken out.old) (K.taken out.new) }
        ensures ok { OnOk result (self.new ≡ []) }
    {
        if self.bytes.is_empty() {
            return Ok(());
        }
        out.put(self.bytes.as_slice())?;
        self.bytes.clear();
        Ok(())
    }

    /// Gathers a text where there is room for it, and tells whether there is.
    fn gather(&mut self, text: &[u8]) -> bool
        ensures room { IsTrue result → self.new ≡ self.old ++ text.now }
        ensures none { result ≡ false → self.new ≡ self.old }
    {
        self.bytes.try_extend_from_slice(text).is_ok()
    }
}
