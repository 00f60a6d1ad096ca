ghost use Rattle.std.specs.Prelude.{◌≡◌, IfOk};

use crate::NoMemory;

/// A clone of what may not be there, which equals it where a clone of the item equals the item.
pub fn copy_option<T: Clone>(option: &Option<T>) -> Result<Option<T>, NoMemory>
    requires { (x y : T) → T.is_clone x y → y ≡ x }
    ensures { IfOk result (λ copy. copy ≡ option.now) }
{
    match option {
        Some(item) => Ok(Some(item.clone()?)),
        None => Ok(None),
    }
}
