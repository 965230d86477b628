ghost use Rattle.std.specs.Prelude.{◌≡◌, ◌↔◌, IsTrue};

use std::io::ErrorKind;

/// Returns whether an error of `kind` means that the call was only interrupted and must be made again.
pub(crate) fn is_interruption(kind: ErrorKind) -> bool
    ensures { IsTrue result ↔ (kind ≡ ErrorKind.Interrupted) }
{
    kind == ErrorKind::Interrupted
}
