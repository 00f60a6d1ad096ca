//! URLs with a scheme, and the statuses that lead to them (Apache manual, mod_rewrite, RewriteRule;
//! mod_alias, Redirect).
ghost use Rattle.std.specs.Prelude.{◌≡◌};
ghost use Rattle.std.specs.Str.{str_eq_ignore_ascii_case};
ghost use Rattle.hc_target.specs.Urls.{begins_without_case, is_redirection, is_url};

/// The text begins with these bytes, without case.
pub fn begins_without_case(front: &[u8], text: &[u8]) -> bool
    ensures { result ≡ begins_without_case front.now text.now }
{
    is_alike(front, text.split_at(text.len().min(front.len())).0)
}

// The texts are one, without case.
fn is_alike(one: &[u8], other: &[u8]) -> bool
    ensures { result ≡ str_eq_ignore_ascii_case one.now other.now }
{
    one.eq_ignore_ascii_case(other)
}

/// The text begins with `http://` or `https://`, without case (RFC 3986, section 3.1).
pub fn is_url(text: &[u8]) -> bool
    ensures { result ≡ is_url text.now }
{
    begins_without_case(b"http://", text) || begins_without_case(b"https://", text)
}

/// Such a status has a location.
pub fn is_redirection(status: u16) -> bool
    ensures { result ≡ is_redirection status }
{
    (300..400).contains(&status)
}
