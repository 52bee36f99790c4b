// A record as a list of its nodes: the report of a text's entries, which needs no record over them.
ghost use Rattle.std.specs.Prelude.{◌≡◌, ◌++◌, IfOk, OnOk};
ghost use Rattle.reports.specs.Lines.{name_text, node_line, node_lines};
ghost use Rattle.reports.specs.Outlines.{Outlined, listing};

use crate::listings::{Listing, report_input};
use crate::report::{Report, Row};
use record_text::Entry;
use std::alloc::{AllocError, Global};

// The name of a node.
fn name_of<'a>(text: &'a [u8], node: &Entry) -> &'a [u8]
    ensures { result.now ≡ name_text text.now node.now }
{
    node.name(text)
}

// Adds the line of a node of the text.
fn push_node(report: &mut Report, text: &[u8], index: usize, node: &Entry) -> Result<(), AllocError>
    ensures { OnOk result (report.new ≡ report.old ++ node_line text.now index node.now) }
{
    report.push_row(Row {
        index,
        place: node.start,
        depth: node.depth,
        name: name_of(text, node),
        value: node.value,
    })
}

// Adds the lines of all nodes.
fn push_nodes(report: &mut Report, text: &[u8], nodes: &[Entry]) -> Result<(), AllocError>
    ensures { OnOk result (report.new ≡ report.old ++ node_lines text.now 0 nodes.now) }
{
    for (index, node) in nodes.iter().enumerate() {
        push_node(report, text, index, node)?;
    }
    Ok(())
}

// All nodes of a text: a line for each, and their count.
#[derive(Clone, Copy)]
struct Nodes;

impl Listing for Nodes {
    ghost said = { λ _ t es. listing t es };

    fn list(&self, heap: Global, text: &[u8], entries: &[Entry]) -> Result<Vec<u8>, AllocError> {
        let mut report = Report::new(heap);
        push_nodes(&mut report, text, entries)?;
        report.push_count(entries.len())?;
        Ok(report.into_bytes())
    }
}

// The report of an input: a line a node and their count, or the line of a refusal.
pub fn outline(heap: Global, input: &[u8]) -> Result<Vec<u8>, AllocError>
    ensures { IfOk result (λ v. Outlined (listing input.now) input.now v.items) }
{
    report_input(heap, input, &Nodes)
}
