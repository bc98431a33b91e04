// Puts several pieces.
ghost use Rattle.std.specs.Prelude.{◌≡◌};
ghost use Rattle.std.specs.List.{flat_map};
ghost use Rattle.dcv_io.specs.Putting.{Puts};

use crate::Target;

/// Puts the pieces, one after another.
pub fn put_pieces<T: Target>(target: &mut T, pieces: &[&[u8]])
    ensures { Puts (T.standing target.old) (T.standing target.new) (flat_map (λ piece. piece.now) pieces.now) }
{
    for piece in pieces {
        target.put(piece);
    }
}
