// A text in memory that is put together.
ghost use Rattle.std.specs.Prelude.{◌≡◌, [], false, IfOk};
ghost use Rattle.dcv_io.specs.Putting.{Holds, text_put};

use crate::Target;
use std::alloc::{AllocError, Global};

/// A text in memory that is put together piece by piece.
#[derive(Drop)]
pub struct Text {
    // what was put
    bytes: Vec<u8>,
    // whether memory ran out, so that bytes are missing
    failed: bool,
}

impl Text {
    /// An empty text.
    pub fn new(alloc: Global) -> Text
        ensures bytes { result.bytes.items ≡ [] }
        ensures failed { result.failed ≡ false }
    {
        Text {
            bytes: Vec::new(alloc),
            failed: false,
        }
    }

    /// All that was put, if memory did not run out.
    pub fn finish(self) -> Result<Vec<u8>, AllocError>
        ensures failed { IfOk result (λ _. self.failed ≡ false) }
        ensures all { IfOk result (λ bytes. bytes ≡ self.bytes) }
    {
        let Text { bytes, failed } = self;
        if failed { Err(AllocError) } else { Ok(bytes) }
    }
}

impl Target for Text {
    ghost standing = { λ t. text_put t.bytes.items t.failed };

    fn put(&mut self, bytes: &[u8]) {
        if !self.failed && !bytes.is_empty() {
            self.failed = self.bytes.extend_from_slice(bytes).is_err();
        }
    }
}
