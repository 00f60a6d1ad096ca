use hc_base::Refusal;
use hc_model::{Kind, LimitKind, Reason, Redirect};

/// How a pass ends.
#[derive(Drop)]
pub enum Left {
    /// An answer of this status.
    Status(u16),
    Outside(Reason),
    /// What stands at the file name, with the path information.
    Found(Kind),
    /// A redirect sends the request away.
    Sent(Redirect),
    /// A `.htaccess` is refused.
    Refused(Refusal),
    Limit(LimitKind),
    NextPass,
}
