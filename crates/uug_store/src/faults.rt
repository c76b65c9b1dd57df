//! Converts a fault of a folder into an error of the program.
ghost use Rattle.std.specs.Prelude.{◌≡◌};
ghost use Rattle.uug_stream.specs.declared.fault.ToolFault.TheVariants.{Device as device};

use crate::folder::FolderFailed;
use uug_stream::ToolFault;

impl From<FolderFailed> for ToolFault {
    ghost from_gives = { λ _ tool. tool ≡ device };

    fn from(_failed: FolderFailed) -> ToolFault {
        ToolFault::Device
    }
}
