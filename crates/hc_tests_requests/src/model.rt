//! That what the model's types hold can be cloned.

use crate::answers::request;
use hc_addr::Addr;
use hc_base::{NoMemory, Text};
use hc_model::{Caller, Scheme, View};
use std::alloc::Global;

fn caller(alloc: Global) -> Result<Caller, NoMemory> {
    let name = Text::copy_of(alloc, b"b.example")?;
    let mut request = request(alloc, "a.example", "/i?q")?;
    request.scheme = Scheme::Https;
    request.port = 443;
    request.client = Addr::V6(9);
    Ok(Caller { request, name })
}

fn view(alloc: Global) -> Result<View, NoMemory> {
    Ok(View {
        path: Text::copy_of(alloc, b"/i")?,
        query: Text::copy_of(alloc, b"q")?,
        name: Text::copy_of(alloc, b"/srv/i")?,
        caller: caller(alloc)?,
    })
}

fn is_same(a: &View, b: &View) -> bool {
    a.caller.request == b.caller.request
        && a.caller.name == b.caller.name
        && a.path == b.path
        && a.query == b.query
        && a.name == b.name
}

fn is_cloned(alloc: Global) -> Result<bool, NoMemory> {
    let view = view(alloc)?;
    let copy = view.clone()?;
    Ok(is_same(&view, &copy))
}

#[test]
fn views_are_cloned(rt: HostRuntime) -> Result<(), NoMemory> {
    assert!(rt; is_cloned(rt.alloc())?);
    Ok(())
}
