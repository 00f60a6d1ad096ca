ghost use Rattle.std.specs.Prelude.{◌≡◌};
ghost use Rattle.hc_claim_lines.specs.ClaimLines.{directive_of, is_named};

/// What a claim speaks of.
#[derive(Clone, Copy, PartialEq, Eq)]
pub enum Subject {
    /// A RewriteRule.
    Rule,
    /// A Require.
    Require,
}

impl Subject {
    fn directive(self) -> &'static str
        ensures { result.now ≡ directive_of self }
    {
        match self {
            Subject::Rule => "RewriteRule",
            Subject::Require => "Require",
        }
    }

    /// Its directive has this name, without case.
    pub(crate) fn is_named(self, name: &[u8]) -> bool
        ensures { result ≡ is_named self name.now }
    {
        self.directive().as_bytes().eq_ignore_ascii_case(name)
    }
}
