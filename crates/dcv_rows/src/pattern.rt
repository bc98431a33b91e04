// The bytes of a file, and the bytes expected as a report or as a message.
ghost use Rattle.std.specs.Prelude.{◌≡◌, true, None};

use std::alloc::{AllocError, Global};

/// Bytes, and if there is a gap in them, the bytes after it.
#[derive(Drop)]
pub(crate) struct Pattern {
    alloc: Global,
    pub(crate) prefix: Vec<u8>,
    pub(crate) suffix: Option<Vec<u8>>,
}

impl Pattern {
    /// No bytes.
    pub(crate) fn new(alloc: Global) -> Pattern {
        Pattern {
            alloc,
            prefix: Vec::new(alloc),
            suffix: None,
        }
    }

    /// Adds what the line stands for, and answers whether it stands for something.
    pub(crate) fn add_line(&mut self, line: &str) -> Result<bool, AllocError> {
        if let Some(suffix) = &mut self.suffix {
            return add_piece(self.alloc, suffix, line);
        }
        if line == ".." {
            self.suffix = Some(Vec::new(self.alloc));
            return Ok(true);
        }
        add_piece(self.alloc, &mut self.prefix, line)
    }

    /// Whether these are the bytes, with some at the gap, if there is one.
    pub(crate) fn fits(&self, bytes: &[u8]) -> bool
        ensures whole { self.now.suffix ≡ None → result ≡ true → bytes.now ≡ self.now.prefix.items }
    {
        let Some(suffix) = &self.suffix else {
            return bytes == self.prefix.as_slice();
        };
        match bytes.strip_prefix(self.prefix.as_slice()) {
            Some(rest) => rest.len() > suffix.len() && rest.ends_with(suffix),
            None => false,
        }
    }
}

// Adds the bytes of a piece, as often as it says, and answers whether it is one.
fn add_piece(alloc: Global, bytes: &mut Vec<u8>, piece: &str) -> Result<bool, AllocError> {
    let Some((count, once)) = counted(piece) else {
        return Ok(false);
    };
    let Some(part) = part_of(alloc, once)? else {
        return Ok(false);
    };
    for _ in 0..count {
        bytes.extend_from_slice(&part)?;
    }
    Ok(true)
}

// How often a piece stands there, and what it is once.
fn counted(piece: &str) -> Option<(u64, &str)> {
    match piece.strip_prefix('*') {
        Some(rest) => {
            let (count, once) = rest.split_once(' ')?;
            Some((count.parse().ok()?, once))
        }
        None => Some((1, piece)),
    }
}

// The bytes of a line with its end, of a text without one, or of digits of base 16.
fn part_of(alloc: Global, once: &str) -> Result<Option<Vec<u8>>, AllocError> {
    if let Some(digits) = once.strip_prefix('^') {
        return Ok(hex::decode(alloc, digits).ok());
    }
    if let Some(text) = once.strip_prefix('>') {
        return Ok(Some(text.as_bytes().to_vec(alloc)?));
    }
    let Some(text) = once.strip_prefix('|') else {
        return Ok(None);
    };
    let mut bytes = text.as_bytes().to_vec(alloc)?;
    bytes.push(b'\n')?;
    Ok(Some(bytes))
}
