// The boundaries of an opened array.
ghost use Rattle.std.specs.Prelude.{◌≡◌, ◌*◌, ◌+◌, ◌<◌, ◌↔◌, IfOk, IsTrue, length};
ghost use Rattle.dg_model.specs.Shapes.{IsShape};
ghost use Rattle.dg_open.specs.Seen.{AreCounted, IsCounted};
ghost use Rattle.dg_store.specs.Rows.{RowStands, members_in};

use crate::bodies::Failures;
use crate::labels::{Labels, MEMBERS};
use dg_io::NoMemory;
use dg_pair::Boundary;
use dg_save::Label;
use std::alloc::Global;

/// The boundaries of an array with the label of its source, and with these marks of members that are good.
pub fn row_of(
    alloc: Global,
    labels: &Labels,
    failed: &Failures,
    source: &Label,
    marks: &[bool],
) -> Result<Vec<Boundary>, NoMemory>
    requires shape { IsShape source.now.shape }
    requires marks { length marks.now ≡ 2 * source.now.shape.b }
    ensures count { IfOk result (λ row. length row.items ≡ source.now.shape.b) }
    ensures stands { IfOk result (λ row. RowStands source.now.shape.l (source.now.shape.k + 1) row.items) }
    ensures members { IfOk result (λ row. AreCounted labels.now failed.now source.now marks.now (members_in row.items)) }
{
    let shape = &source.shape;
    let mut row = Vec::new(alloc);
    for number in 0..shape.b {
        let first = is_counted(labels, failed, source, marks, 2 * number);
        let second = is_counted(labels, failed, source, marks, 2 * number + 1);
        let boundary = Boundary::opened(number, shape.l, shape.k + 1, (first, second));
        if row.push(boundary).is_err() {
            return Err(NoMemory);
        }
    }
    Ok(row)
}

/// Whether a member of the array is good: it has the label of the source but for its place, its mark says so, and reading its body
/// didn't fail.
fn is_counted(
    labels: &Labels,
    failed: &Failures,
    source: &Label,
    marks: &[bool],
    member: u8,
) -> bool
    requires within { member < 32 }
    requires marks { member < length marks.now }
    ensures { IsTrue result ↔ IsCounted labels.now failed.now source.now marks.now member }
{
    let at = member as usize;
    let own = Label {
        boundary: member / 2,
        side: member % 2,
        ..*source
    };
    labels[at] == Some(own) && marks[at] && !failed[at]
}
