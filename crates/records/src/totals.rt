// The sum of a record's values, for every record: an example of code that is proved once from the interface alone.
ghost use Rattle.std.specs.Prelude.{◌≡◌};
ghost use Rattle.records.specs.Sums.{total_of};

use crate::record::Record;

// The sum of all values, in hundredths. At most 4,096 values of at most 10,000,000 fit the answer.
pub fn total<R: Record>(source: &R) -> i64
    ensures { result ≡ total_of (R.nodes source.now) }
{
    let mut sum = 0;
    // By number, since that is how a record is asked; `sum` over a chain says nothing of a signed sum's bounds.
    for n in 0..source.count() {
        if let Some(value) = source.value(n) {
            sum += i64::from(value);
        }
    }
    sum
}
