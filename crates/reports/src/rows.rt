// The report of any record.
ghost use Rattle.std.specs.Prelude.{◌≡◌, ℕ, List, ◌++◌, length, IfOk, if◌then◌else◌, codes, OnOk};
ghost use Rattle.records.specs.Nodes.{named_at};
ghost use Rattle.reports.specs.Rows.{found, record_line, record_lines, record_listing};

use crate::report::{Report, Row};
use records::Record;
use std::alloc::{AllocError, Global};

// What a record comes from: the names that stand at its places.
pub trait Names {
    ghost stands: { Self → ℕ → List ℕ };

    // The name at a place.
    fn name(&self, place: usize) -> &[u8]
        ensures { result.now ≡ stands self.now place };
}

// The name, if it is that of node n.
fn own_name<'a, R: Record>(source: &R, n: usize, name: &'a [u8]) -> &'a [u8]
    ensures { result.now ≡ (if named_at (R.nodes source.now) n name.now then name.now else codes "?") }
{
    if source.is_named(n, name) { name } else { b"?" }
}

// Adds the line of node n.
fn push_record_line<R: Record, N: Names>(
    report: &mut Report,
    source: &R,
    names: &N,
    n: usize,
) -> Result<(), AllocError>
    ensures { OnOk result (report.new ≡ report.old ++ record_line (found (N.stands names.now)) (R.nodes source.now) (R.places source.now) n) }
{
    let place = source.place(n);
    report.push_row(Row {
        index: n,
        place,
        depth: source.depth(n),
        name: own_name(source, n, names.name(place)),
        value: source.value(n),
    })
}

// Adds the lines of all nodes.
fn push_lines<R: Record, N: Names>(
    report: &mut Report,
    source: &R,
    names: &N,
) -> Result<(), AllocError>
    ensures { OnOk result (report.new ≡ report.old ++ record_lines (found (N.stands names.now)) (R.nodes source.now) (R.places source.now) 0 (length (R.nodes source.now))) }
{
    // By number, since that is how a record is asked.
    for n in 0..source.count() {
        push_record_line(report, source, names, n)?;
    }
    Ok(())
}

// Adds the lines of all nodes, and their count.
pub(crate) fn push_record<R: Record, N: Names>(
    report: &mut Report,
    source: &R,
    names: &N,
) -> Result<(), AllocError>
    ensures { OnOk result (report.new ≡ report.old ++ record_listing (found (N.stands names.now)) (R.nodes source.now) (R.places source.now)) }
{
    push_lines(report, source, names)?;
    report.push_count(source.count())
}

// The report of a record: a line a node, and their count.
pub fn list_record<R: Record, N: Names>(
    heap: Global,
    source: &R,
    names: &N,
) -> Result<Vec<u8>, AllocError>
    ensures { IfOk result (λ v. v.items ≡ record_listing (found (N.stands names.now)) (R.nodes source.now) (R.places source.now)) }
{
    let mut report = Report::new(heap);
    push_record(&mut report, source, names)?;
    Ok(report.into_bytes())
}
