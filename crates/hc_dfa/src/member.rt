ghost use Rattle.std.specs.Prelude.{◌≡◌};

use hc_base::NoMemory;
use std::marker::Model;

/// A text of bytes, found in a set.
#[derive(Drop)]
pub struct Member {
    bytes: Vec<u8>,
}

impl Model for Member {
    ghost use Rattle.std.specs.Prelude.{List, ℕ};

    ghost Value = { List ℕ };

    ghost view = { λ m. m.bytes.items };
}

impl Member {
    pub fn as_bytes(&self) -> &[u8]
        ensures { result.now ≡ self.now }
    {
        &self.bytes
    }
}

impl From<Vec<u8>> for Member {
    ghost from_gives = { λ bytes m. m ≡ bytes.items };

    fn from(bytes: Vec<u8>) -> Member {
        Member { bytes }
    }
}

impl Clone for Member {
    ghost is_clone = { λ member copy. copy ≡ member };

    fn clone(&self) -> Result<Member, NoMemory> {
        Ok(Member {
            bytes: self.bytes.clone()?,
        })
    }
}
