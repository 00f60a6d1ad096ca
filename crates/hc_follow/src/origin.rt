//! The origin of a URL.
ghost use Rattle.std.specs.Prelude.{◌≡◌, ◌∷◌, ◌++◌, [], IfOk, codes, decimal, option_map};
ghost use Rattle.std.specs.String.{string_bytes};
ghost use Rattle.hc_base.specs.Bytes.{colon};
ghost use Rattle.hc_follow.specs.Next.{behind, behind_front, behind_port, ends_authority, front_of};

use hc_base::{NoMemory, Text};
use hc_model::Scheme;
use hc_target::begins_without_case;
use hc_template::{default_port, scheme_name};
use std::alloc::Global;

/// An own server: how its URLs begin.
#[derive(Clone, Drop)]
pub struct Origin {
    pub scheme: Scheme,
    pub host: Text,
    pub port: u16,
}

impl Origin {
    // What a location has behind this origin.
    pub(crate) fn behind<'t>(
        &self,
        alloc: Global,
        location: &'t [u8],
    ) -> Result<Option<&'t [u8]>, NoMemory>
        ensures { IfOk result (λ rest. option_map (λ text. text.now) rest ≡ behind self.now location.now) }
    {
        let front = self.front(alloc)?;
        if !begins_without_case(&front, location) {
            return Ok(None);
        }
        self.behind_port(alloc, &location[front.len()..])
    }

    // The scheme and the host.
    fn front(&self, alloc: Global) -> Result<Vec<u8>, NoMemory>
        ensures { IfOk result (λ front. front.items ≡ front_of self.now) }
    {
        let mut front = Vec::new(alloc);
        front.extend_from_slice(scheme_name(self.scheme))?;
        front.extend_from_slice(b"://")?;
        front.extend_from_slice(self.host.as_bytes())?;
        Ok(front)
    }

    fn behind_port<'t>(&self, alloc: Global, text: &'t [u8]) -> Result<Option<&'t [u8]>, NoMemory>
        ensures { IfOk result (λ rest. option_map (λ text. text.now) rest ≡ behind_port self.now text.now) }
    {
        let port = written_port(alloc, self.port)?;
        if let Some(rest) = behind_front(port.as_bytes(), text) {
            return Ok(Some(rest));
        }
        if self.port == default_port(self.scheme) {
            Ok(behind_front(b"", text))
        } else {
            Ok(None)
        }
    }
}

// A colon and the port in decimal.
fn written_port(alloc: Global, port: u16) -> Result<String, NoMemory>
    ensures { IfOk result (λ text. string_bytes text ≡ colon ∷ decimal port) }
{
    format!(in alloc; ":{port}")
}

// What stands behind a front, where an authority ends there.
fn behind_front<'t>(front: &[u8], text: &'t [u8]) -> Option<&'t [u8]>
    ensures { option_map (λ rest. rest.now) result ≡ behind_front front.now text.now }
{
    if !text.starts_with(front) {
        return None;
    }
    let rest = &text[front.len()..];
    if ends_authority(rest) {
        Some(rest)
    } else {
        None
    }
}

fn ends_authority(text: &[u8]) -> bool
    ensures { result ≡ ends_authority text.now }
{
    match text {
        [] => true,
        [first, ..] => matches!(first, b'/' | b'?' | b'#'),
    }
}
