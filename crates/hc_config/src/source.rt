ghost use Rattle.std.specs.Prelude.{◌≡◌};
ghost use Rattle.hc_config.specs.Sources.{is_class_allowed, is_forbidden, may_stand, top_context};

use hc_model::Allowed;
use hc_table::{Class, Context, DirectiveKind};

/// Whose text is built.
#[derive(Clone, Copy)]
pub(crate) enum Source {
    /// The configuration's.
    Configuration,
    /// A `.htaccess`, which may hold this.
    Override(Allowed),
}

impl Source {
    /// The context outside all sections.
    pub(crate) fn top_context(self) -> Context
        ensures { result ≡ top_context self }
    {
        match self {
            Source::Configuration => Context::MainServer,
            Source::Override(_) => Context::Htaccess,
        }
    }

    /// A directive may stand in this context: in a section of a `.htaccess` only where it may in both.
    pub(crate) fn may_stand(self, context: Context, kind: DirectiveKind) -> bool
        ensures { result ≡ may_stand self context kind }
    {
        match self {
            Source::Configuration => kind.contexts.contain(context),
            Source::Override(_) => {
                kind.contexts.contain(context) && kind.contexts.contain(Context::Htaccess)
            }
        }
    }

    /// Its class is not allowed.
    pub(crate) fn is_forbidden(self, kind: DirectiveKind) -> bool
        ensures { result ≡ is_forbidden self kind }
    {
        match self {
            Source::Configuration => false,
            Source::Override(allowed) => !is_class_allowed(allowed, kind.class),
        }
    }
}

fn is_class_allowed(allowed: Allowed, class: Option<Class>) -> bool
    ensures { result ≡ is_class_allowed allowed class }
{
    match class {
        None => true,
        Some(Class::AuthConfig) => allowed.auth,
        Some(Class::FileInfo) => allowed.file_info,
        Some(Class::Indexes) => allowed.indexes,
        Some(Class::Limit) => allowed.limit,
        Some(Class::Options) => allowed.options,
    }
}
