//! Requests that may show what is known of a set of requests.
ghost use Rattle.std.specs.Prelude.{◌≡◌, ◌++◌, IfOk, OnOk, filter, map, option_copied, option_map};
ghost use Rattle.std.specs.List.{find};
ghost use Rattle.hc_candidates.specs.Candidates.{AreCandidates, AreLeast, IsCommonOf, header_by, least_client};
ghost use Rattle.hc_candidates.specs.Candidates.{request_with, target_of};
ghost use Rattle.hc_cells.specs.Cells.{holds, of_set};
ghost use Rattle.hc_cells.specs.declared.slot.Slot.TheVariants as slot;
ghost use Rattle.hc_dfa.specs.Texts.{IsLeastOf};
ghost use Rattle.hc_members.specs.Requests.{is_of_scope};

use hc_addr::{Addr, Net};
use hc_base::{List, NoMemory, Text};
use hc_cells::{Cell, Slot};
use hc_dfa::{Dfa, Member, first_members, least};
use hc_members::is_of_scope;
use hc_model::{Header, Request};
use hc_scope::Scope;
use hc_target::escape_path;
use std::alloc::Global;

/// How many paths are tried.
pub const MOST_CANDIDATES: usize = 16;

/// What the candidates have in common.
#[derive(Drop)]
pub struct Common {
    pub method: Text,
    pub query: Text,
    pub headers: List<Header>,
}

/// The requests of a scope with the least paths of the slot `origin`, in order, each with the least texts of the other
/// slots: of the headers with these names, and of the query that the request began with.
pub fn candidates(
    alloc: Global,
    scope: &Scope,
    headers: &[Text],
    cell: &Cell,
) -> Result<Vec<Request>, NoMemory>
    ensures { IfOk result (λ found. AreCandidates scope.now headers.now cell.now found.items) }
{
    let Some(origins) = cell.set_of(&Slot::Origin) else {
        return Ok(Vec::new(alloc));
    };
    let Some(common) = common_by(alloc, scope, headers, cell)? else {
        return Ok(Vec::new(alloc));
    };
    let paths = first_members(alloc, origins, MOST_CANDIDATES)?;
    of_scope(alloc, scope, &common, paths.as_slice())
}

/// What the candidates have in common; none where the method or the query has no text.
fn common_by(
    alloc: Global,
    scope: &Scope,
    headers: &[Text],
    cell: &Cell,
) -> Result<Option<Common>, NoMemory>
    ensures { IfOk result (IsCommonOf scope.now headers.now cell.now) }
{
    let Some(method) = first_method(scope.methods.as_slice(), cell) else {
        return Ok(None);
    };
    let Some(query) = least_at(alloc, cell, &Slot::FirstQuery)? else {
        return Ok(None);
    };
    let common = common_with(alloc, method, query, least_headers(alloc, headers, cell)?)?;
    Ok(Some(common))
}

fn common_with(
    alloc: Global,
    method: &Text,
    query: Member,
    headers: List<Header>,
) -> Result<Common, NoMemory>
    ensures { IfOk result (λ common. common ≡ record { method = method.now; query = query; headers = headers }) }
{
    Ok(Common {
        method: method.clone()?,
        query: Text::copy_of(alloc, query.as_bytes())?,
        headers,
    })
}

/// The first of the methods that the slot has.
fn first_method<'t>(methods: &'t [Text], cell: &Cell) -> Option<&'t Text>
    ensures { option_map (λ text. text.now) result ≡ find (holds cell.now slot.Method) methods.now }
{
    let set = cell.set_of(&Slot::Method);
    methods.iter().find(|method| is_in(set, method.as_bytes()))
}

/// Whether a text is in a set; every text is where there is none.
fn is_in(set: Option<&Dfa>, text: &[u8]) -> bool
    ensures { result ≡ of_set (option_copied set.entry) text.now }
{
    match set {
        Some(set) => set.accepts(text),
        None => true,
    }
}

/// The least text that the slot holds.
#[tactic(auto, using(crate::proofs::Leasts::least_of_all))]
fn least_at(alloc: Global, cell: &Cell, slot: &Slot) -> Result<Option<Member>, NoMemory>
    ensures { IfOk result (IsLeastOf (holds cell.now slot.now)) }
{
    match cell.set_of(slot) {
        Some(set) => least(alloc, set),
        None => Ok(Some(Member::from(Vec::new(alloc)))),
    }
}

/// The headers of these names that may not be empty, each with its least value.
fn least_headers(alloc: Global, names: &[Text], cell: &Cell) -> Result<List<Header>, NoMemory>
    ensures { IfOk result (λ headers. AreLeast cell.now names.now headers) }
{
    let mut headers = List::new(alloc);
    for name in names {
        let value = least_value(alloc, cell, name)?;
        push_header(alloc, name, value, &mut headers)?;
    }
    Ok(headers)
}

/// The least value of a header.
fn least_value(alloc: Global, cell: &Cell, name: &Text) -> Result<Option<Member>, NoMemory>
    ensures { IfOk result (IsLeastOf (holds cell.now (slot.Header name.now))) }
{
    let slot = Slot::Header(name.clone()?);
    least_at(alloc, cell, &slot)
}

fn push_header(
    alloc: Global,
    name: &Text,
    value: Option<Member>,
    headers: &mut List<Header>,
) -> Result<(), NoMemory>
    ensures { OnOk result (headers.new ≡ headers.old ++ header_by name.now value) }
{
    let Some(value) = value else {
        return Ok(());
    };
    if value.as_bytes().is_empty() {
        return Ok(());
    }
    headers.push(Header {
        name: name.clone()?,
        value: Text::copy_of(alloc, value.as_bytes())?,
    })
}

/// Those of these paths that are of the scope.
fn of_scope(
    alloc: Global,
    scope: &Scope,
    common: &Common,
    paths: &[Member],
) -> Result<Vec<Request>, NoMemory>
    ensures { IfOk result (λ found. found.items
        ≡ filter (is_of_scope scope.now) (map (request_with scope.now common.now) paths.now)) }
{
    let mut found = Vec::new(alloc);
    for path in paths {
        let request = request_with(alloc, scope, common, path.as_bytes())?;
        if !is_of_scope(alloc, scope, &request)? {
            continue;
        }
        found.push(request)?;
    }
    Ok(found)
}

fn request_with(
    alloc: Global,
    scope: &Scope,
    common: &Common,
    path: &[u8],
) -> Result<Request, NoMemory>
    ensures { IfOk result (λ request. request ≡ request_with scope.now common.now path.now) }
{
    Ok(Request {
        method: common.method.clone()?,
        scheme: scope.scheme,
        server: scope.server,
        port: scope.port,
        host: scope.host.clone()?,
        client: least_client(&scope.client),
        headers: common.headers.copy()?,
        target: target_of(alloc, common.query.as_bytes(), path)?,
    })
}

/// The least address of a network.
fn least_client(net: &Net) -> Addr
    ensures { result ≡ least_client net.now }
{
    match net.addr {
        Addr::V4(own) => Addr::V4((u128::from(own) & net.mask) as u32),
        Addr::V6(own) => Addr::V6(own & net.mask),
    }
}

/// The target of a path and a query. An empty query is left out.
fn target_of(alloc: Global, query: &[u8], path: &[u8]) -> Result<Text, NoMemory>
    ensures { IfOk result (λ target. target ≡ target_of query.now path.now) }
{
    let escaped = escape_path(alloc, path)?;
    if query.is_empty() {
        return Ok(escaped);
    }
    let mut bytes = escaped.into_vec();
    bytes.push(b'?')?;
    bytes.extend_from_slice(query)?;
    Ok(Text::from(bytes))
}
