// A report, as it is written.
ghost use Rattle.std.specs.Prelude.{◌≡◌, ℕ, List, [], ◌∷◌, ◌++◌, OnOk};
ghost use Rattle.refusals.specs.Refusals.{number, places};
ghost use Rattle.reports.specs.Lines.{count_line, held_text, line, refused_line, row, total_line};

use crate::values::Hundredths;
use refusals::Refusal;
use std::alloc::{AllocError, Global};
use std::marker::Model;

// What the line of a node tells.
#[derive(Clone, Copy)]
pub(crate) struct Row<'a> {
    pub index: usize,
    pub place: usize,
    pub depth: usize,
    pub name: &'a [u8],
    pub value: Option<i32>,
}

// What is written so far. Contracts see its bytes.
#[derive(Drop)]
pub(crate) struct Report {
    bytes: Vec<u8>,
}

impl Model for Report {
    ghost Value = { List ℕ };

    ghost view = { λ r. r.bytes.items };
}

impl Report {
    pub fn new(heap: Global) -> Report
        ensures { result ≡ [] }
    {
        Report {
            bytes: Vec::new(heap),
        }
    }

    // The bytes of the report.
    pub fn into_bytes(self) -> Vec<u8>
        ensures { result.items ≡ self }
    {
        self.bytes
    }

    // Adds a blank, what a node holds, and the end of its line. (A branch's is written as it stands: as text made anew for each line it
    // takes a fifth of a report's instructions.)
    fn push_held(&mut self, value: Option<i32>) -> Result<(), AllocError>
        ensures { OnOk result (self.new ≡ self.old ++ 32 ∷ line (held_text value) []) }
    {
        let Some(value) = value else {
            return self.bytes.extend_from_slice(b" -\n");
        };
        let value = Hundredths(i64::from(value));
        let text = format!(in *self.bytes.allocator(); " {value}\n")?;
        self.bytes.extend_from_slice(text.as_bytes())
    }

    // Adds the line of a node.
    pub fn push_row(&mut self, node: Row<'_>) -> Result<(), AllocError>
        ensures { OnOk result (self.new ≡ self.old ++ row node.entry.index node.entry.place node.entry.depth node.entry.name.now node.entry.value) }
    {
        let Row {
            index,
            place,
            depth,
            name,
            value,
        } = node;
        let front = format!(in *self.bytes.allocator(); "{index} {place} {depth} ")?;
        self.bytes.extend_from_slice(front.as_bytes())?;
        self.bytes.extend_from_slice(name)?;
        self.push_held(value)
    }

    // Adds the line that counts the nodes.
    pub fn push_count(&mut self, nodes: usize) -> Result<(), AllocError>
        ensures { OnOk result (self.new ≡ self.old ++ count_line nodes) }
    {
        let line = format!(in *self.bytes.allocator(); "{nodes} nodes\n")?;
        self.bytes.extend_from_slice(line.as_bytes())
    }

    // Adds the line of the sum of values.
    pub fn push_total(&mut self, total: i64) -> Result<(), AllocError>
        ensures { OnOk result (self.new ≡ self.old ++ total_line total) }
    {
        let sum = Hundredths(total);
        let line = format!(in *self.bytes.allocator(); "total {sum}\n")?;
        self.bytes.extend_from_slice(line.as_bytes())
    }

    // Adds the line of a refusal.
    pub fn push_refused(&mut self, refusal: Refusal) -> Result<(), AllocError>
        ensures { OnOk result (self.new ≡ self.old ++ refused_line (number refusal) (places refusal)) }
    {
        let line = format!(in *self.bytes.allocator(); "{refusal}\n")?;
        self.bytes.extend_from_slice(line.as_bytes())
    }
}
