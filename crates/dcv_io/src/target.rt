// What a text is put into, piece by piece.
ghost use Rattle.std.specs.Prelude.{List, ℕ};
ghost use Rattle.dcv_io.specs.Putting.{Put, Puts};

/// What a text is put into, piece by piece.
///
/// A target that has failed takes no more, and reports this at its end. So a writer of a text goes on to the end of it.
pub trait Target {
    /// Its state.
    ghost standing: { Self → Put };

    /// Puts the bytes after those put before, or nothing where it has failed.
    fn put(&mut self, bytes: &[u8])
        ensures { Puts (standing self.old) (standing self.new) bytes.now };
}
