//! What trees of authorization say, also those that no configuration gives.

use crate::expressions::request;
use hc_addr::Addr;
use hc_authz::{Tri, join, value, value_of};
use hc_base::{List, NoMemory, Place, Text};
use hc_model::{Caller, Merging, Need, ReqTree, Requirement};
use std::alloc::Global;
use std::test::Fail;

// A line that is met or is not, one behind `not`, or a container.
enum Shape {
    Met,
    Unmet,
    NotMet,
    NotUnmet,
    All(&'static [Shape]),
    Any(&'static [Shape]),
    NoneOf(&'static [Shape]),
}

use Shape::{All, Any, Met, NoneOf, NotMet, NotUnmet, Unmet};

static TREES: &[(Shape, Tri)] = &[
    (Met, Tri::Granted),
    (Unmet, Tri::Denied),
    (NotMet, Tri::Denied),
    (NotUnmet, Tri::Neutral),
    (All(&[]), Tri::Neutral),
    (All(&[Met, Met]), Tri::Granted),
    (All(&[Met, Unmet]), Tri::Denied),
    (All(&[Met, NotMet]), Tri::Denied),
    (All(&[NotUnmet, Met]), Tri::Granted),
    (All(&[NotUnmet, NotUnmet]), Tri::Neutral),
    (Any(&[]), Tri::Neutral),
    (Any(&[Unmet, Met]), Tri::Granted),
    (Any(&[Unmet, Unmet]), Tri::Denied),
    (Any(&[NotUnmet, NotUnmet]), Tri::Neutral),
    (Any(&[NotUnmet, Unmet]), Tri::Denied),
    (NoneOf(&[]), Tri::Neutral),
    (NoneOf(&[Unmet, Met]), Tri::Denied),
    (NoneOf(&[Unmet, Unmet]), Tri::Neutral),
    (NoneOf(&[NotMet]), Tri::Neutral),
    (All(&[Met, NoneOf(&[Unmet])]), Tri::Granted),
    (All(&[Met, NoneOf(&[Met])]), Tri::Denied),
    (
        Any(&[All(&[Unmet, Met]), All(&[Met, NotUnmet])]),
        Tri::Granted,
    ),
    (Any(&[NoneOf(&[Unmet]), All(&[Met, NotMet])]), Tri::Denied),
];

fn leaf(alloc: Global, negated: bool, need: Need) -> ReqTree {
    ReqTree::Leaf {
        place: Place {
            file: Text::new(alloc),
            line: 0,
        },
        negated,
        need,
    }
}

#[cycle(made)]
fn made(alloc: Global, shape: &Shape) -> Result<ReqTree, NoMemory> {
    match shape {
        Shape::Met => Ok(leaf(alloc, false, Need::Granted)),
        Shape::Unmet => Ok(leaf(alloc, false, Need::Denied)),
        Shape::NotMet => Ok(leaf(alloc, true, Need::Granted)),
        Shape::NotUnmet => Ok(leaf(alloc, true, Need::Denied)),
        Shape::All(shapes) => Ok(ReqTree::All(each_made(alloc, shapes)?)),
        Shape::Any(shapes) => Ok(ReqTree::AnyOf(each_made(alloc, shapes)?)),
        Shape::NoneOf(shapes) => Ok(ReqTree::NoneOf(each_made(alloc, shapes)?)),
    }
}

#[cycle(made)]
fn each_made(alloc: Global, shapes: &[Shape]) -> Result<List<ReqTree>, NoMemory> {
    let mut trees = List::new(alloc);
    for shape in shapes {
        trees.push(made(alloc, shape)?)?;
    }
    Ok(trees)
}

fn caller(alloc: Global) -> Result<Caller, NoMemory> {
    Ok(Caller {
        request: request(alloc, Addr::V4(1))?,
        name: Text::new(alloc),
    })
}

#[test]
fn trees_have_one_of_three_values(rt: HostRuntime) -> Result<(), Fail> {
    let caller = caller(rt.alloc())?;
    for (shape, wanted) in TREES {
        let tree = made(rt.alloc(), shape)?;
        assert!(&rt; value(&tree, &caller) == *wanted);
    }
    Ok(())
}

// How two trees are joined, and what that says where the one is met and the other is not.
static JOINED: &[(Merging, Shape, Shape, Tri)] = &[
    (Merging::Off, Met, Unmet, Tri::Denied),
    (Merging::Off, Unmet, Met, Tri::Granted),
    (Merging::And, Met, Unmet, Tri::Denied),
    (Merging::And, Met, NotUnmet, Tri::Granted),
    (Merging::Or, Met, Unmet, Tri::Granted),
    (Merging::Or, Unmet, NotUnmet, Tri::Denied),
];

fn joined(
    alloc: Global,
    how: Merging,
    before: &Shape,
    own: &Shape,
) -> Result<Requirement, NoMemory> {
    let first = join(Requirement::none(alloc), made(alloc, before)?, Merging::And)?;
    join(first, made(alloc, own)?, how)
}

#[test]
fn trees_are_joined(rt: HostRuntime) -> Result<(), Fail> {
    let caller = caller(rt.alloc())?;
    assert!(&rt; value_of(&Requirement::none(rt.alloc()), &caller) == None);
    for (how, before, own, wanted) in JOINED {
        let require = joined(rt.alloc(), *how, before, own)?;
        assert!(&rt; value_of(&require, &caller) == Some(*wanted));
    }
    Ok(())
}

// What 3,000 trees say, which are these over and over.
static MANY: &[(&[(Merging, Shape)], Tri)] = &[
    (&[(Merging::And, Met), (Merging::Or, Unmet)], Tri::Granted),
    (&[(Merging::And, Unmet), (Merging::Or, Met)], Tri::Granted),
    (&[(Merging::Or, Met), (Merging::And, Unmet)], Tri::Denied),
    (
        &[(Merging::And, NotUnmet), (Merging::Or, NotUnmet)],
        Tri::Neutral,
    ),
    (
        &[
            (Merging::Off, Met),
            (Merging::And, NotUnmet),
            (Merging::Or, Unmet),
        ],
        Tri::Granted,
    ),
    (
        &[
            (Merging::Or, Met),
            (Merging::And, Met),
            (Merging::Off, Unmet),
        ],
        Tri::Denied,
    ),
];

fn with_each(
    alloc: Global,
    before: Requirement,
    rows: &[(Merging, Shape)],
) -> Result<Requirement, NoMemory> {
    let mut require = before;
    for (how, own) in rows {
        require = join(require, made(alloc, own)?, *how)?;
    }
    Ok(require)
}

fn many(alloc: Global, rows: &[(Merging, Shape)]) -> Result<Requirement, NoMemory> {
    let mut require = Requirement::none(alloc);
    for _ in 0..3000 / rows.len().max(1) {
        require = with_each(alloc, require, rows)?;
    }
    Ok(require)
}

#[test]
fn many_trees_are_joined(rt: HostRuntime) -> Result<(), Fail> {
    let caller = caller(rt.alloc())?;
    for (rows, wanted) in MANY {
        let require = many(rt.alloc(), rows)?;
        let copy = require.clone()?;
        assert!(&rt; value_of(&require, &caller) == Some(*wanted));
        assert!(&rt; value_of(&copy, &caller) == Some(*wanted));
    }
    Ok(())
}

// A tree within so many containers, in turn of both kinds that say what their only member says.
fn nested(alloc: Global, depth: u32, innermost: &Shape) -> Result<ReqTree, NoMemory> {
    let mut tree = made(alloc, innermost)?;
    for level in 0..depth {
        tree = container(alloc, level, tree)?;
    }
    Ok(tree)
}

fn container(alloc: Global, level: u32, member: ReqTree) -> Result<ReqTree, NoMemory> {
    let mut members = List::new(alloc);
    members.push(member)?;
    match level % 2 {
        0 => Ok(ReqTree::All(members)),
        _ => Ok(ReqTree::AnyOf(members)),
    }
}

#[test]
fn containers_nest(rt: HostRuntime) -> Result<(), Fail> {
    let caller = caller(rt.alloc())?;
    for (innermost, wanted) in TREES {
        let tree = nested(rt.alloc(), 64, innermost)?;
        let copy = tree.clone()?;
        assert!(&rt; value(&tree, &caller) == *wanted);
        assert!(&rt; value(&copy, &caller) == *wanted);
    }
    Ok(())
}
