//! What the lines of a tree may say.
ghost use Rattle.std.specs.Prelude.{◌≡◌, IfOk, map};
ghost use Rattle.hc_abs_pass.specs.Authorizing.{in_net, need_leaves};
ghost use Rattle.hc_abs_authz.specs.Clients.{AreAnswers, ClientMay};
ghost use Rattle.hc_abs_authz.specs.Leaves.{LineMay, Says, either_of, where_some};
ghost use Rattle.hc_abs_authz.specs.Asking.{IsKnown, MethodSays, says};

use crate::answers::Answers;
use crate::methods::{meets, method_set};
use crate::nets::{fixed_answers, local_answers, net_answers, some_client};
use hc_addr::Net;
use hc_base::{NoMemory, Text};
use hc_dfa::{Dfa, Keep};
use hc_model::{Need, Request};
use std::alloc::Global;

/// Of which requests it is asked who may pass: the clients are those of a network.
#[derive(Clone, Copy)]
pub struct Asking<'a> {
    pub alloc: Global,
    pub net: &'a Net,
    /// One of the requests, of which the client and the method are not looked at.
    pub request: &'a Request,
    pub methods: &'a Dfa,
    /// There is a method.
    pub some: bool,
}

/// Whether a line may be met, and whether it may not be.
pub(crate) fn need_answers(asking: Asking<'_>, need: &Need) -> Result<Answers, NoMemory>
    requires { IsKnown asking }
    ensures { IfOk result (AreAnswers (LineMay (says asking.entry) (need_leaves asking.entry.request.now need.now))) }
{
    match need {
        Need::Granted => Ok(of_clients(asking, fixed_answers(asking.net, true))),
        Need::Denied => Ok(of_clients(asking, fixed_answers(asking.net, false))),
        Need::Ip(nets) => Ok(nets_answers(asking, nets.as_slice())),
        Need::Method(names) => method_answers(asking, names.as_slice()),
        Need::Local => Ok(of_clients(asking, local_answers(asking.net, asking.request.server))),
    }
}

/// The answers of a test of the client alone.
fn of_clients(asking: Asking<'_>, answers: Answers) -> Answers
    ensures { result ≡ where_some asking.entry.some answers }
{
    Answers {
        yes: asking.some && answers.yes,
        no: asking.some && answers.no,
    }
}

/// The answers of a line of networks.
fn nets_answers(asking: Asking<'_>, nets: &[Net]) -> Answers
    requires { IsKnown asking }
    ensures { AreAnswers (LineMay (says asking.entry) (map in_net nets.now)) result }
{
    let mut answers = Answers {
        yes: false,
        no: true,
    };
    for net in nets {
        answers = either_of(answers, of_clients(asking, net_answers(asking.net, net)));
    }
    answers
}

/// One of the first answers with one of the others: whether either is that it holds.
fn either_of(first: Answers, other: Answers) -> Answers
    ensures { result ≡ either_of first other }
{
    Answers {
        yes: (first.yes && (other.yes || other.no)) || (first.no && other.yes),
        no: first.no && other.no,
    }
}

/// The answers of a line of methods.
fn method_answers(asking: Asking<'_>, names: &[Text]) -> Result<Answers, NoMemory>
    ensures { IfOk result (AreAnswers (MethodSays asking.entry names.now)) }
{
    let _client = some_client(asking.net);
    let set = method_set(asking.alloc, names)?;
    let yes = meets(asking.alloc, asking.methods, &set, Keep::Both)?;
    let no = meets(asking.alloc, asking.methods, &set, Keep::FirstOnly)?;
    Ok(Answers { yes, no })
}
