ghost use Rattle.std.specs.Prelude.{◌≡◌, ◌+◌, ◌≤◌, ℕ, List, Contains, OnOk, option_map};
ghost use Rattle.hc_model.specs.Overrides.{IfMemory, Kept, Loaded, Override, Reading, IsRead, file_of};

use crate::{Allowed, HtFile};
use hc_base::{Fault, Refusal};

/// Why a `.htaccess` is not read: it breaks a rule.
pub type AtFault = Fault<Refusal>;

/// The `.htaccess` files of a world under a configuration, each read for what AllowOverride allows in
/// its directory (Apache manual, core, AllowOverride).
pub trait Overrides {
    /// What no call changes of it.
    ghost Fixed: { Type 0 };

    ghost fixed: { Self → Fixed };

    /// What reading the `.htaccess` of a directory gives for what is allowed there. Who reads them
    /// says what that is for a world and a configuration.
    ghost reading: { Fixed → Reading };

    /// How many bytes the text of the `.htaccess` of a directory has.
    ghost size: { Fixed → List ℕ → ℕ };

    /// The directories that are loaded, each with what is allowed there.
    ghost loaded: { Self → List Loaded };

    /// How many bytes of texts its counter has counted.
    ghost counted: { Self → ℕ };

    /// Reads the `.htaccess` of a directory. It is refused exactly where reading it is.
    fn load(&mut self, dir: &[u8], allowed: Allowed) -> Result<(), AtFault>
        ensures fixed { fixed self.new ≡ fixed self.old }
        ensures kept { Kept (loaded self.old) (loaded self.new) }
        ensures loads { OnOk result (Contains (loaded self.new) (record { dir = dir.now; allowed = allowed })) }
        ensures cause { IsRead result (reading (fixed self.old) dir.now allowed) }
        ensures counted { IfMemory result
            (counted self.new ≤ counted self.old + size (fixed self.old) dir.now) };

    /// The `.htaccess` of a directory that is loaded; none where there is no such file.
    fn get(&self, dir: &[u8], allowed: Allowed) -> Option<&HtFile>
        ensures { Contains (loaded self.now) (record { dir = dir.now; allowed = allowed })
            → option_map (λ file. file.now) result ≡ file_of (reading (fixed self.now) dir.now allowed) };
}
