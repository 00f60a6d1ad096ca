ghost use Rattle.std.specs.Prelude.{◌≡◌, List, IfOk, None};
ghost use Rattle.hc_nodes.specs.NodeView.{GivesNodes, nodes_view};
ghost use Rattle.hc_nodes.specs.Sections.{IsClosed, followed, section_lines, whole};
ghost use Rattle.hc_nodes.specs.Tree.{Nodes, rule_broken, directive_at, levels_of, next_of};
ghost use Rattle.hc_nodes.specs.Tree.{nodes_of, none, open_behind, refusal_of, with_line};

use crate::node::{Node, NodeFault};
use crate::refusal::first_refusal;
use crate::section::{inside_brackets, is_close, is_complete, split_name};
use crate::stack::Stack;
use hc_base::{Fault, NoMemory};
use hc_lines::Line;
use std::alloc::Global;

// A section whose close has not come, and the nodes before it on its level.
#[derive(Drop)]
struct Section<'l, 't> {
    line: &'l Line<'t>,
    name: &'l str,
    args: &'l str,
    before: Vec<Node<'l, 't>>,
}

/// The directives and sections of lines (Apache manual, "Configuration Sections"), in their order.
///
/// Lines that break rules are refused by the first line that breaks one, and there by the rule of
/// the smallest number (our own choice).
#[tactic(auto, unfolding(crate::specs::Tree::nodes_of))]
pub fn read_nodes<'l, 't>(
    alloc: Global,
    lines: &'l [Line<'t>],
) -> Result<Vec<Node<'l, 't>>, NodeFault>
    ensures { GivesNodes result (nodes_of lines.now) }
{
    match first_refusal(alloc, lines)? {
        Some(refusal) => Err(Fault::Refused(refusal)),
        None => Ok(build_nodes(alloc, lines)?),
    }
}

// The nodes of lines that break no rule. Those are nested at most 64 deep, so the nodes are too, and
// to drop them recurses no deeper.
fn build_nodes<'l, 't>(alloc: Global, lines: &'l [Line<'t>]) -> Result<Vec<Node<'l, 't>>, NoMemory>
    requires { refusal_of lines.now ≡ None }
    ensures { IfOk result (λ nodes. nodes_view nodes.items ≡ next_of (levels_of lines.now)) }
{
    let mut sections = Stack::new(alloc);
    let mut nodes = Vec::new(alloc);
    for line in lines {
        nodes = read_line(alloc, &mut sections, nodes, line)?;
    }
    Ok(nodes)
}

// The nodes of the innermost section behind this line, by those before it.
fn read_line<'l, 't>(
    alloc: Global,
    sections: &mut Stack<Section<'l, 't>>,
    nodes: Vec<Node<'l, 't>>,
    line: &'l Line<'t>,
) -> Result<Vec<Node<'l, 't>>, NoMemory>
    requires { rule_broken (section_lines sections.old) line.now ≡ None }
    ensures lines { IfOk result (λ _.
        section_lines sections.new ≡ open_behind (section_lines sections.old) line.now) }
    ensures same { IfOk result (λ later. (levels : List Nodes)
        → whole sections.new (nodes_view later.items) levels
        ≡ whole sections.old (nodes_view nodes.entry.items) (with_line line.now levels)) }
{
    if is_close(line) {
        close(sections, nodes)
    } else if is_complete(line) {
        let (name, args) = split_name(inside_brackets(line));
        sections.push(Section {
            line,
            name,
            args,
            before: nodes,
        })?;
        Ok(Vec::new(alloc))
    } else {
        with_directive(nodes, line)
    }
}

// The innermost section closes: it is put behind the nodes before it.
fn close<'l, 't>(
    sections: &mut Stack<Section<'l, 't>>,
    body: Vec<Node<'l, 't>>,
) -> Result<Vec<Node<'l, 't>>, NoMemory>
    ensures { IfOk result (λ later.
        IsClosed sections.old (nodes_view body.entry.items) sections.new (nodes_view later.items)) }
{
    let Some(section) = sections.pop() else {
        return Ok(body);
    };
    let (line, name, args, mut before) = (section.line, section.name, section.args, section.before);
    before.push(Node::Block {
        line,
        name,
        args,
        body,
    })?;
    Ok(before)
}

// The nodes and behind them a directive.
fn with_directive<'l, 't>(
    mut nodes: Vec<Node<'l, 't>>,
    line: &'l Line<'t>,
) -> Result<Vec<Node<'l, 't>>, NoMemory>
    ensures { IfOk result (λ later.
        nodes_view later.items ≡ followed (nodes_view nodes.entry.items) (directive_at line.now none)) }
{
    let (name, rest) = split_name(line.text.as_str());
    nodes.push(Node::Directive { line, name, rest })?;
    Ok(nodes)
}
