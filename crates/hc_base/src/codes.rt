//! The numbers of the rules that a refusal names, and their names as they are printed. Our own
//! choice; docs/RULES.md says where each comes.

ghost use Rattle.std.specs.Prelude.{◌≡◌, map};
ghost use Rattle.hc_base.specs.Codes.{name_among, name_of_code};

/// A directive, container or authorization provider that is not known.
pub const UNSUPPORTED_DIRECTIVE: u8 = 1;

/// A directive where it may not stand.
pub const WRONG_CONTEXT: u8 = 2;

/// A wrong number or form of a directive's words.
pub const WRONG_ARGUMENTS: u8 = 3;

/// An opening without its close, or without its `>`.
pub const UNCLOSED_SECTION: u8 = 4;

/// A close that is not the innermost opening's.
pub const UNMATCHED_CLOSE: u8 = 5;

/// A quoted word without its end.
pub const UNCLOSED_QUOTE: u8 = 6;

/// A logical line that is too long.
pub const LINE_TOO_LONG: u8 = 7;

/// An included file, or a main file, that is not there.
pub const INCLUDE_MISSING: u8 = 8;

/// A file that includes itself.
pub const INCLUDE_CYCLE: u8 = 9;

/// Includes that are nested too deep.
pub const INCLUDE_TOO_DEEP: u8 = 10;

/// A relative include before any `ServerRoot`.
pub const NO_SERVER_ROOT: u8 = 11;

/// A name that no `Define` may give.
pub const BAD_DEFINE_NAME: u8 = 12;

/// A construct of patterns that is not supported.
pub const PATTERN_UNSUPPORTED: u8 = 13;

/// What is no pattern.
pub const PATTERN_SYNTAX: u8 = 14;

/// A pattern that is too large.
pub const PATTERN_TOO_LARGE: u8 = 15;

/// A repeat of what can match the empty text.
pub const EMPTY_LOOP: u8 = 16;

/// What is no flag of a rule or a condition.
pub const BAD_FLAG: u8 = 17;

/// A flag that is not supported.
pub const UNSUPPORTED_FLAG: u8 = 18;

/// A variable that is not known.
pub const UNSUPPORTED_VARIABLE: u8 = 19;

/// A form of condition that is not supported.
pub const UNSUPPORTED_CONDITION: u8 = 20;

/// A negated member of what one member suffices for.
pub const NEGATED_IN_ANY: u8 = 21;

/// A negated member of what no member may meet.
pub const NEGATED_IN_NONE: u8 = 22;

/// A container of all members whose members are all negated.
pub const ONLY_NEGATIVE: u8 = 23;

/// An authorization container without members.
pub const EMPTY_CONTAINER: u8 = 24;

/// Signed and unsigned words in one `Options` line.
pub const MIXED_OPTIONS: u8 = 25;

/// What is no address and no network.
pub const BAD_ADDRESS: u8 = 26;

/// A server without a `DocumentRoot`.
pub const NO_DOCUMENT_ROOT: u8 = 27;

/// An address of a virtual host that is not supported.
pub const VHOST_ADDRESS: u8 = 28;

/// A directive of an `.htaccess` file that is not allowed there.
pub const OVERRIDE_NOT_ALLOWED: u8 = 29;

/// Sections that are nested too deep.
pub const NESTED_TOO_DEEP: u8 = 30;

/// A control byte in a configuration text.
pub const CONTROL_BYTE: u8 = 31;

/// What is no expression.
pub const BAD_EXPRESSION: u8 = 32;

/// A rule that redirects and lets the next rule go on.
pub const REDIRECT_WITHOUT_LAST: u8 = 33;

/// A rewriting directive where none may stand.
pub const REWRITE_CONTEXT: u8 = 34;

/// A file whose text is not known.
pub const CONTENT_MISSING: u8 = 35;

/// What is no rewrite map.
pub const MAP_FORM: u8 = 36;

/// A path that is not there.
pub const NO_SUCH_PATH: u8 = 40;

/// What is no path of a file.
pub const PATH_FORM: u8 = 41;

/// A path below a file.
pub const UNDER_FILE: u8 = 42;

/// A range of lines that is not there.
pub const BAD_RANGE: u8 = 43;

/// What is no set of texts.
pub const SET_SYNTAX: u8 = 44;

/// A line that is no JSON.
pub const BAD_JSON: u8 = 45;

/// A line that is no command.
pub const BAD_COMMAND: u8 = 46;

/// A file where a directory is.
pub const IS_DIRECTORY: u8 = 47;

/// A place where no directive stands.
pub const NO_SUCH_PLACE: u8 = 48;

// The name of each number.
const NAMES: [(u8, &str); 45] = [
    (UNSUPPORTED_DIRECTIVE, "UnsupportedDirective"),
    (WRONG_CONTEXT, "WrongContext"),
    (WRONG_ARGUMENTS, "WrongArguments"),
    (UNCLOSED_SECTION, "UnclosedSection"),
    (UNMATCHED_CLOSE, "UnmatchedClose"),
    (UNCLOSED_QUOTE, "UnclosedQuote"),
    (LINE_TOO_LONG, "LineTooLong"),
    (INCLUDE_MISSING, "IncludeMissing"),
    (INCLUDE_CYCLE, "IncludeCycle"),
    (INCLUDE_TOO_DEEP, "IncludeTooDeep"),
    (NO_SERVER_ROOT, "NoServerRoot"),
    (BAD_DEFINE_NAME, "BadDefineName"),
    (PATTERN_UNSUPPORTED, "PatternUnsupported"),
    (PATTERN_SYNTAX, "PatternSyntax"),
    (PATTERN_TOO_LARGE, "PatternTooLarge"),
    (EMPTY_LOOP, "EmptyLoop"),
    (BAD_FLAG, "BadFlag"),
    (UNSUPPORTED_FLAG, "UnsupportedFlag"),
    (UNSUPPORTED_VARIABLE, "UnsupportedVariable"),
    (UNSUPPORTED_CONDITION, "UnsupportedCondition"),
    (NEGATED_IN_ANY, "NegatedInAny"),
    (NEGATED_IN_NONE, "NegatedInNone"),
    (ONLY_NEGATIVE, "OnlyNegative"),
    (EMPTY_CONTAINER, "EmptyContainer"),
    (MIXED_OPTIONS, "MixedOptions"),
    (BAD_ADDRESS, "BadAddress"),
    (NO_DOCUMENT_ROOT, "NoDocumentRoot"),
    (VHOST_ADDRESS, "VhostAddress"),
    (OVERRIDE_NOT_ALLOWED, "OverrideNotAllowed"),
    (NESTED_TOO_DEEP, "NestedTooDeep"),
    (CONTROL_BYTE, "ControlByte"),
    (BAD_EXPRESSION, "BadExpression"),
    (REDIRECT_WITHOUT_LAST, "RedirectWithoutLast"),
    (REWRITE_CONTEXT, "RewriteContext"),
    (CONTENT_MISSING, "ContentMissing"),
    (MAP_FORM, "MapForm"),
    (NO_SUCH_PATH, "NoSuchPath"),
    (PATH_FORM, "PathForm"),
    (UNDER_FILE, "UnderFile"),
    (BAD_RANGE, "BadRange"),
    (SET_SYNTAX, "SetSyntax"),
    (BAD_JSON, "BadJson"),
    (BAD_COMMAND, "BadCommand"),
    (IS_DIRECTORY, "IsDirectory"),
    (NO_SUCH_PLACE, "NoSuchPlace"),
];

/// The name of a rule as it is printed; empty for a number that no rule has.
pub fn name_of_code(code: u8) -> &'static str
    ensures { result.now ≡ name_of_code code }
{
    name_among(&NAMES, code)
}

fn name_among(rows: &[(u8, &'static str)], code: u8) -> &'static str
    ensures { result.now ≡ name_among (map (λ row. (row.0, row.1.now)) rows.now) code }
{
    for (number, name) in rows {
        if *number == code {
            return name;
        }
    }
    ""
}
