// The tables of an image are sized from the last directory back to the root, and each one's preorder is kept.
#![tactic(auto)]

ghost use Rattle.std.specs.Prelude.{◌≡◌, ◌+◌, ◌≤◌, ◌<◌, Ok, length, take};
ghost use Rattle.img_model.specs.Shares.{directories_of, count_of, share_of, part};
ghost use Rattle.img_model.specs.Plan.{table_in, sizes_down};
ghost use Rattle.img_model.specs.Columns.{columns_in};
ghost use Rattle.img_model.specs.inner.Tables.{Sizeable, TablesIn};
ghost use Rattle.img_table.specs.inner.Arranging.{Sizing};
ghost use Rattle.img_table.specs.inner.Scratch.{places_in, IsSameScratch};
ghost use Rattle.img_size.specs.inner.Sizing.{Roomy, number_in, listed_at, told_sizes};

use img_model::{Request, directory_share};
use img_table::{EntryError, TableScratch, size_table};

// The size of directory d's table, and its preorder into its places of `order`, which are those from `at` on.
fn size_directory(
    d: usize,
    at: usize,
    request: Request<'_>,
    sized: &[u32],
    scratch: &mut TableScratch<'_>,
    order: &mut [u16],
) -> Result<u32, EntryError>
    requires sizeable { Sizeable (columns_in request) }
    requires roomy { Roomy (columns_in request) (length sized.now) (places_in scratch.old) (length order.old) }
    requires directory { d < directories_of (columns_in request) }
    requires places { at + count_of (columns_in request) d ≤ length order.old }
    ensures table { let R = columns_in request.entry in
        Sizing result (share_of R d) (table_in sized.now) (part at (count_of R d) order.new) }
    ensures earlier { take at order.new ≡ take at order.old }
    ensures places { places_in scratch.new ≡ places_in scratch.old }
    ensures same { IsSameScratch scratch.old scratch.new }
{
    let share = directory_share(request, d);
    let end = at + share.kind.len();
    size_table(share, sized, scratch, &mut order[at..end])
}

// The refusal of an entry of the share that starts at `first`, by its place in the list of entries.
fn in_list(e: EntryError, first: u32) -> EntryError
    requires { first + number_in e ≤ 4294967295 }
    ensures { result ≡ listed_at first e }
{
    match e {
        EntryError::Refused(cause, i) => EntryError::Refused(cause, first + i),
        EntryError::FileTooLarge(i) => EntryError::FileTooLarge(first + i),
    }
}

// Every table's size into `sized`, from the last directory back; and every table's preorder into `order`, the last
// directory's first. An entry that is refused is told by its place in the list.
pub fn size_tables(
    request: Request<'_>,
    sized: &mut [u32],
    scratch: &mut TableScratch<'_>,
    order: &mut [u16],
) -> Result<(), EntryError>
    requires sizeable { Sizeable (columns_in request) }
    requires roomy { Roomy (columns_in request) (length sized.old) (places_in scratch.old) (length order.old) }
    ensures sizes { let R = columns_in request.entry in
        told_sizes result sized.new ≡ sizes_down R (directories_of R) sized.old }
    ensures tables { result ≡ Ok tt → TablesIn (columns_in request.entry) sized.new order.new }
    ensures places { places_in scratch.new ≡ places_in scratch.old }
    ensures same { IsSameScratch scratch.old scratch.new }
{
    let mut at = 0;
    for d in (0..request.from.len()).rev() {
        match size_directory(d, at, request, sized, scratch, order) {
            Ok(size) => sized[d] = size,
            Err(e) => return Err(in_list(e, request.from[d])),
        }
        at += request.share[d] as usize;
    }
    Ok(())
}
