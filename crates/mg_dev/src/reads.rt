//! How often each part was read.
ghost use Rattle.std.specs.Prelude.{slice_index};
ghost use Rattle.mg_dev.specs.Names.{number};
ghost use Rattle.mg_dev.specs.Files.{OneRead};

use crate::Part;

/// Counts one more read of the part. A count stands still at its type's end.
pub fn count_read(reads: &mut [u64; 14], part: Part)
    ensures { OneRead (λ q. slice_index reads.old (number q))
        (λ q. slice_index reads.new (number q)) part }
{
    let i = part.number();
    reads[i] = reads[i].saturating_add(1);
}
