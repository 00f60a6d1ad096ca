ghost use Rattle.std.specs.Prelude.{◌≡◌, Ok};
ghost use Rattle.hc_base.specs.Gives.{Gives};
ghost use Rattle.hc_flat.specs.EntriesView.{entry_of};
ghost use Rattle.hc_config.specs.Among.{among_of};
ghost use Rattle.hc_config.specs.Directives.{redirect_by, sent, sent_alone, sent_to_url, sent_with};

use crate::among::{Among, place_of};
use crate::effect::{Effect, EffectFault, REFUSED};
use crate::gathered::Given;
use crate::status::{TEMPORARY, first_status, has_url};
use crate::targets::{PathForm, target_by, test_by};
use hc_base::{CowStr, Fault, List};
use hc_flat::EntryView;
use hc_model::{PathTest, Redirect, Template};

/// `Redirect [status] url-path [url]`, and `RedirectMatch` with a pattern (Apache manual, mod_alias):
/// without a status it is 302, and only a status from 300 to 399 has a URL.
pub(crate) fn redirect(
    form: PathForm,
    among: &Among,
    words: &[CowStr],
) -> Result<Effect, EffectFault>
    ensures { Gives result (redirect_by form (among_of among.now) words.now) }
{
    let [first, rest @ ..] = words else {
        return Err(REFUSED);
    };
    match first_status(first.as_str()) {
        Ok(Some(status)) => redirect_with(form, status, among, rest),
        Ok(None) => redirect_with(form, TEMPORARY, among, words),
        Err(broken) => Err(Fault::Refused(broken)),
    }
}

fn redirect_with(
    form: PathForm,
    status: u16,
    among: &Among,
    words: &[CowStr],
) -> Result<Effect, EffectFault>
    ensures { Gives result (sent_with form status (among_of among.now) words.now) }
{
    if has_url(status) {
        redirect_as(form, status, among, words)
    } else {
        redirect_alone(form, status, among, words)
    }
}

/// `RedirectPermanent url-path url` and its kin (mod_alias).
pub(crate) fn redirect_as(
    form: PathForm,
    status: u16,
    among: &Among,
    words: &[CowStr],
) -> Result<Effect, EffectFault>
    ensures { Gives result (sent_to_url form status (among_of among.now) words.now) }
{
    match words {
        [from, url] => {
            let to = target_by(among.alloc, form, url)?;
            send(among.entry, status, to, test_by(among.alloc, form, from)?)
        }
        _ => Err(REFUSED),
    }
}

// A status alone.
fn redirect_alone(
    form: PathForm,
    status: u16,
    among: &Among,
    words: &[CowStr],
) -> Result<Effect, EffectFault>
    ensures { Gives result (sent_alone form status (among_of among.now) words.now) }
{
    match words {
        [from] => send(
            among.entry,
            status,
            List::new(among.alloc),
            test_by(among.alloc, form, from)?,
        ),
        _ => Err(REFUSED),
    }
}

fn send(entry: EntryView, status: u16, to: Template, from: PathTest) -> Result<Effect, EffectFault>
    ensures { Gives result (Ok (sent (entry_of entry.entry).spot status to from)) }
{
    Ok(Effect::Gives(Given::Send(Redirect {
        place: place_of(entry)?,
        span: entry.span,
        from,
        to,
        status,
    })))
}
