ghost use Rattle.std.specs.Prelude.{◌≡◌, ℕ, List, Option, IfOk, option_map};

use hc_base::{NoMemory, Text};

/// The texts of files.
pub trait Texts {
    /// The text of the file at a path.
    ghost texts: { Self → List ℕ → Option (List ℕ) };

    fn text(&self, path: &[u8]) -> Option<&str>
        ensures { option_map (λ text. text.now) result ≡ texts self.now path.now };
}

/// The maps of a server (Apache manual, mod_rewrite, RewriteMap). Who reads them says what they give.
pub trait Lookups {
    /// What a map gives for a key, by the map's name.
    ghost values: { Self → List ℕ → List ℕ → Option (List ℕ) };

    /// The path of the text of a map, by its name; none for a map that has no text.
    ghost files: { Self → List ℕ → Option (List ℕ) };

    fn value(&self, name: &[u8], key: &[u8]) -> Result<Option<Text>, NoMemory>
        ensures { IfOk result (λ value. value ≡ values self.now name.now key.now) };

    fn file(&self, name: &[u8]) -> Option<&[u8]>
        ensures { option_map (λ path. path.now) result ≡ files self.now name.now };
}
