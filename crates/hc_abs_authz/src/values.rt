//! What a tree of authorization may say: sets of values, by the answers that its leaves may give.
ghost use Rattle.std.specs.Prelude.{◌≡◌, Bool};
ghost use Rattle.hc_authz.specs.Values as definition;
ghost use Rattle.hc_abs_authz.specs.Leaves.{joined, kept, line_values, no_votes, table_of, together, two_values};
ghost use Rattle.hc_abs_authz.specs.Leaves.{values_behind, values_by, values_joined, where_may, with_denied};
ghost use Rattle.hc_abs_authz.specs.Leaves.{with_granted, with_member};

use crate::answers::Answers;
use hc_authz::Tri;
use hc_model::Merging;

/// The values that a tree may have.
#[derive(Clone, Copy)]
pub struct Values {
    pub granted: bool,
    pub denied: bool,
    pub neutral: bool,
}

/// What members may come to together: whether some of them is granted, and whether some is denied.
#[derive(Clone, Copy)]
pub struct Votes {
    pub neither: bool,
    pub granted: bool,
    pub denied: bool,
    pub both: bool,
}

/// A container of `Require` lines (Apache manual, mod_authz_core, RequireAll, RequireAny, RequireNone).
#[derive(Clone, Copy)]
pub enum Container {
    All,
    AnyOf,
    NoneOf,
}

impl Values {
    /// One value, where it may be had.
    fn where_may(may: bool, value: Tri) -> Values
        ensures { result ≡ where_may may value }
    {
        match value {
            Tri::Granted => Values {
                granted: may,
                denied: false,
                neutral: false,
            },
            Tri::Denied => Values {
                granted: false,
                denied: may,
                neutral: false,
            },
            Tri::Neutral => Values {
                granted: false,
                denied: false,
                neutral: may,
            },
        }
    }

    fn joined(self, other: Values) -> Values
        ensures { result ≡ joined self other }
    {
        Values {
            granted: self.granted || other.granted,
            denied: self.denied || other.denied,
            neutral: self.neutral || other.neutral,
        }
    }

    /// Those of a line, by whether it may be met.
    pub(crate) fn of_line(negated: bool, answers: Answers) -> Values
        ensures { result ≡ line_values negated answers }
    {
        let met = Values::where_may(answers.yes, line_value(negated, true));
        met.joined(Values::where_may(answers.no, line_value(negated, false)))
    }

    /// Those of two trees that are joined.
    fn of_two(container: Container, before: Values, own: Values) -> Values
        ensures { result ≡ two_values container before own }
    {
        Votes::none().with(before).with(own).by(container)
    }

    /// Those of a tree behind others.
    pub(crate) fn behind(before: Option<Values>, own: Values, how: Merging) -> Values
        ensures { result ≡ values_behind before own how }
    {
        match before {
            Some(before) => values_joined(before, own, how),
            None => own,
        }
    }
}

fn values_joined(before: Values, own: Values, how: Merging) -> Values
    ensures { result ≡ values_joined before own how }
{
    match how {
        Merging::Off => own,
        Merging::And => Values::of_two(Container::All, before, own),
        Merging::Or => Values::of_two(Container::AnyOf, before, own),
    }
}

// `Require not` denies what is met, and says nothing else.
fn line_value(negated: bool, met: bool) -> Tri
    ensures { result ≡ definition.line_value negated met }
{
    match (negated, met) {
        (false, true) => Tri::Granted,
        (false, false) => Tri::Denied,
        (true, true) => Tri::Denied,
        (true, false) => Tri::Neutral,
    }
}

impl Votes {
    /// Where there is no member.
    pub(crate) fn none() -> Votes
        ensures { result ≡ no_votes }
    {
        Votes {
            neither: true,
            granted: false,
            denied: false,
            both: false,
        }
    }

    fn together(self, other: Votes) -> Votes
        ensures { result ≡ together self other }
    {
        Votes {
            neither: self.neither || other.neither,
            granted: self.granted || other.granted,
            denied: self.denied || other.denied,
            both: self.both || other.both,
        }
    }

    fn kept(self, may: bool) -> Votes
        ensures { result ≡ kept may self }
    {
        Votes {
            neither: may && self.neither,
            granted: may && self.granted,
            denied: may && self.denied,
            both: may && self.both,
        }
    }

    fn with_granted(self) -> Votes
        ensures { result ≡ with_granted self }
    {
        Votes {
            neither: false,
            granted: self.neither || self.granted,
            denied: false,
            both: self.denied || self.both,
        }
    }

    fn with_denied(self) -> Votes
        ensures { result ≡ with_denied self }
    {
        Votes {
            neither: false,
            granted: false,
            denied: self.neither || self.denied,
            both: self.granted || self.both,
        }
    }

    /// With a member more.
    pub(crate) fn with(self, values: Values) -> Votes
        ensures { result ≡ with_member self values }
    {
        let granted = self.with_granted().kept(values.granted);
        let denied = self.with_denied().kept(values.denied);
        self.kept(values.neutral).together(granted.together(denied))
    }

    /// The values of a container of these members.
    pub(crate) fn by(self, container: Container) -> Values
        ensures { result ≡ values_by (table_of container) self }
    {
        let neither = Values::where_may(self.neither, container.value(false, false));
        let granted = Values::where_may(self.granted, container.value(true, false));
        let denied = Values::where_may(self.denied, container.value(false, true));
        let both = Values::where_may(self.both, container.value(true, true));
        neither.joined(granted).joined(denied.joined(both))
    }
}

impl Container {
    /// Its value, by whether some member is granted, and whether some is denied.
    fn value(self, granted: bool, denied: bool) -> Tri
        ensures { result ≡ table_of self granted denied }
    {
        match self {
            Container::All => all_value(granted, denied),
            Container::AnyOf => any_value(granted, denied),
            Container::NoneOf => none_value(granted),
        }
    }
}

fn all_value(granted: bool, denied: bool) -> Tri
    ensures { result ≡ definition.all_value granted denied }
{
    match (granted, denied) {
        (_, true) => Tri::Denied,
        (true, false) => Tri::Granted,
        (false, false) => Tri::Neutral,
    }
}

fn any_value(granted: bool, denied: bool) -> Tri
    ensures { result ≡ definition.any_value granted denied }
{
    match (granted, denied) {
        (true, _) => Tri::Granted,
        (false, true) => Tri::Denied,
        (false, false) => Tri::Neutral,
    }
}

fn none_value(granted: bool) -> Tri
    ensures { (denied : Bool) → result ≡ definition.none_value granted denied }
{
    if granted { Tri::Denied } else { Tri::Neutral }
}
