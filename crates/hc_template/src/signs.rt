ghost use Rattle.std.specs.Prelude.{◌≡◌};
ghost use Rattle.hc_template.specs.Fronts.{without_names};

/// The variables that `%{NAME}` may name.
#[derive(Clone, Copy)]
pub enum Names {
    /// None: `%` stands for itself.
    NoName,
    /// Those that an expression may name.
    Expression,
    /// Those of rewriting: all of the table, and headers and variables by their names.
    Rewriting,
}

/// The signs that a template may hold.
#[derive(Clone, Copy)]
pub struct Signs {
    /// `$0` to `$9`.
    pub groups: bool,
    /// `%0` to `%9`.
    pub conditions: bool,
    /// `%{NAME}`.
    pub names: Names,
    /// `${map:key}` and `${map:key|fallback}`.
    pub lookups: bool,
    /// A backslash makes the next byte plain.
    pub escapes: bool,
}

impl Signs {
    pub(crate) fn without_names(self) -> Signs
        ensures { result ≡ without_names self }
    {
        Signs {
            names: Names::NoName,
            ..self
        }
    }
}
