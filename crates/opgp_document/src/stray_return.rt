//! A carriage return that no line feed follows.

ghost use Rattle.std.specs.Prelude.{◌≡◌, Some};
ghost use Rattle.opgp_document.specs.StrayReturn.{stray_return_text, text_fault};

use opgp_octets::{Fault, Layer, Reason};
use std::error::Error;
use std::fmt;

/// The first carriage return of a document that no line feed follows. So the document has no
/// canonical text (RFC 9580, 5.2.1.2): programs disagree about it.
#[derive(Clone, Copy, Debug, PartialEq, Eq)]
pub struct StrayReturn {
    /// Its place in the whole document, from 0. One behind 2^64 - 1 is told as that.
    pub pos: u64,
}

impl StrayReturn {
    /// The fault of the document, of the layer `text`.
    pub fn fault(&self) -> Fault
        ensures { result ≡ text_fault self.now.pos }
    {
        Fault {
            layer: Layer::Text,
            reason: Reason::StrayReturn,
            block: 0,
            pos: self.pos,
            inner: 0,
        }
    }
}

/// `no line feed follows the carriage return at N`
impl fmt::Display for StrayReturn {
    ghost output = { λ stray. Some (stray_return_text stray) };

    fn fmt<W: fmt::Write>(&self, f: &mut fmt::Formatter<W>) -> fmt::Result {
        write!(
            f,
            "no line feed follows the carriage return at {}",
            self.pos
        )
    }
}

impl Error for StrayReturn {}
