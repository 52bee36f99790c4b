// The report of a record under layers.
ghost use Rattle.std.specs.Prelude.{◌≡◌, IfOk};
ghost use Rattle.reports.specs.Piles.{asked_of, kept_of, summed};
ghost use Rattle.reports.specs.Rows.{found};

use crate::report::Report;
use crate::rows::{Names, push_record};
use layers::View;
use records::{Record, total};
use std::alloc::{AllocError, Global};

// What is asked of a report: to show only node `cut` of the record and what lies beneath it; to leave out of that the nodes of the
// name `hide` and what lies beneath them (bytes that are no word hide nothing); and to add the sum of the values that are shown.
#[derive(Clone, Copy)]
pub struct Asked<'w> {
    pub cut: Option<usize>,
    pub hide: Option<&'w [u8]>,
    pub total: bool,
}

// The report of all nodes, with the sum of their values if asked (a line more or less, for which a closure would be no plainer than the
// flag). (Here and below the names stay those of what the record comes from,
// while each layer makes another record: so `source` and `names` are two parameters.)
fn list_summed<R: Record, N: Names>(
    heap: Global,
    source: &R,
    names: &N,
    with_total: bool,
) -> Result<Vec<u8>, AllocError>
    ensures { IfOk result (λ v. v.items ≡ summed (found (N.stands names.now)) with_total (R.nodes source.now) (R.places source.now)) }
{
    let mut report = Report::new(heap);
    push_record(&mut report, source, names)?;
    if with_total {
        report.push_total(total(source))?;
    }
    Ok(report.into_bytes())
}

// The report of the nodes that are not hidden.
fn list_kept<R: Record, N: Names>(
    heap: Global,
    source: &R,
    names: &N,
    asked: Asked<'_>,
) -> Result<Vec<u8>, AllocError>
    ensures { IfOk result (λ v. v.items ≡ kept_of (found (N.stands names.now)) asked.entry (R.nodes source.now) (R.places source.now)) }
{
    let Some(name) = asked.hide else {
        return list_summed(heap, source, names, asked.total);
    };
    let view = View::hide(heap, source, name)?;
    list_summed(heap, &view, names, asked.total)
}

// The report that is asked of a record.
pub fn list_asked<R: Record, N: Names>(
    heap: Global,
    source: &R,
    names: &N,
    asked: Asked<'_>,
) -> Result<Vec<u8>, AllocError>
    ensures { IfOk result (λ v. v.items ≡ asked_of (found (N.stands names.now)) asked.entry (R.nodes source.now) (R.places source.now)) }
{
    let Some(n) = asked.cut else {
        return list_kept(heap, source, names, asked);
    };
    let view = View::cut(heap, source, n)?;
    list_kept(heap, &view, names, asked)
}
