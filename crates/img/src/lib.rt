// An image is planned over its directories: the size and the sector of each table, and the sector of each entry.
#![tactic(auto)]

ghost use Rattle.std.specs.Prelude.{◌≡◌, true, length};
ghost use Rattle.img_model.specs.Shares.{is_tree};
ghost use Rattle.img_model.specs.Plan.{told, total, taking_up, rooted, plan_of};
ghost use Rattle.img_model.specs.Image.{answer_in, lent_after};
ghost use Rattle.img_model.specs.Columns.{columns_in, asked_in, lent_in, IsSameOut, IsSameScratch};
ghost use Rattle.img_table.specs.inner.Scratch.{places_in};
ghost use Rattle.img_table.specs.inner.Scratch as table;
ghost use Rattle.img_take.specs.inner.Forward.{Sized};
ghost use Rattle.img.specs.inner.Steps.{given, given_by, IsAsLong, lent_with, Exact, Wide};
ghost use Rattle.img.specs.inner.Steps.{HandedOut, PlannedBy, Cut, PlannedIn};

use img_model::{PlanError, PlanOut, PlanScratch, Request, cut_request};
use img_room::{add_shares, clear_scratch, has_room};
use img_size::size_tables;
use img_table::TableScratch;
use img_take::{SizedTables, check_tables, take_tables};
use img_tree::is_tree;
use scratch::copy;
use units::Sector;

// Where all tables are sized: 7 and 8, and where neither is met every size and sector is given back.
fn hand_out(
    tables: SizedTables<'_>,
    end: usize,
    size: &mut [u32],
    out: &mut PlanOut<'_>,
) -> Result<Sector, PlanError>
    requires sized { Sized (columns_in tables.request) tables.sized.now tables.order.now (length size.old) }
    requires end { end ≡ total tables.request.share.now }
    requires long { IsAsLong (columns_in tables.request) (given_by out.old) }
    ensures handed { let R = columns_in tables.entry.request in
        HandedOut result tables.entry.sized.now
        (taking_up R tables.entry.sized.now (length R.from) 0
        (rooted R tables.entry.sized.now out.old.tables.now out.old.sectors.now))
        (given_by out.old) (given_by out.new) }
    ensures same { IsSameOut out.old out.new }
{
    let free = check_tables(tables, end, size)?;
    copy(tables.sized, out.sizes);
    take_tables(tables, end, size, out.tables, out.sectors);
    Ok(free)
}

// The plan where the directories are a tree, over columns that are just as long as they are counted.
fn plan_tree(
    request: Request<'_>,
    sized: &mut [u32],
    scratch: &mut TableScratch<'_>,
    order: &mut [u16],
    out: &mut PlanOut<'_>,
) -> Result<Sector, PlanError>
    requires tree { is_tree (columns_in request) ≡ true }
    requires exact { Exact (columns_in request) (length sized.old) (given_by out.old) }
    requires wide { Wide (columns_in request) (places_in scratch.old) }
    ensures planned { PlannedBy result
        (plan_of (columns_in request.entry) (length order.old) out.old.tables.now out.old.sectors.now)
        (given_by out.old) (given_by out.new) }
    ensures places { places_in scratch.new ≡ places_in scratch.old }
    ensures same { IsSameOut out.old out.new × table.IsSameScratch scratch.old scratch.new }
{
    let end = add_shares(request.share);
    if (order.len() as u64) < end {
        return Err(PlanError::Room);
    }
    size_tables(request, sized, scratch, order)?;
    let tables = SizedTables {
        request,
        sized: &*sized,
        order: &*order,
    };
    hand_out(tables, end as usize, scratch.size, out)
}

// The plan over columns that are just as long as they are counted. (The columns to be written come one by one, here and
// below: they are cut, and no proof knows what becomes of a column of which a struct holds a part.)
fn plan_counted(
    request: Request<'_>,
    sized: &mut [u32],
    scratch: &mut TableScratch<'_>,
    order: &mut [u16],
    sizes: &mut [u32],
    tables: &mut [u32],
    sectors: &mut [u32],
) -> Result<Sector, PlanError>
    requires exact { Exact (columns_in request) (length sized.old) (given sizes.old tables.old sectors.old) }
    requires wide { Wide (columns_in request) (places_in scratch.old) }
    ensures planned { PlannedBy result (plan_of (columns_in request.entry) (length order.old) tables.old sectors.old)
        (given sizes.old tables.old sectors.old) (given sizes.new tables.new sectors.new) }
    ensures places { places_in scratch.new ≡ places_in scratch.old }
    ensures same { table.IsSameScratch scratch.old scratch.new }
{
    if !is_tree(request, sized) {
        return Err(PlanError::BadTree);
    }
    let mut out = PlanOut {
        sizes,
        tables,
        sectors,
    };
    plan_tree(request, sized, scratch, order, &mut out)
}

// The plan over the columns as far as the counts go. What it leaves in the scratch is not cleared.
fn plan_cut(
    directories: usize,
    entries: usize,
    request: Request<'_>,
    sized: &mut [u32],
    scratch: &mut TableScratch<'_>,
    order: &mut [u16],
    sizes: &mut [u32],
    tables: &mut [u32],
    sectors: &mut [u32],
) -> Result<Sector, PlanError>
    requires { Cut (asked_in directories entries request)
        (lent_with (given sizes.old tables.old sectors.old) sized.old scratch.old order.old) }
    ensures planned { PlannedIn result (asked_in directories entries request.entry)
        (lent_with (given sizes.old tables.old sectors.old) sized.old scratch.old order.old)
        (given sizes.new tables.new sectors.new) }
    ensures places { places_in scratch.new ≡ places_in scratch.old }
    ensures same { table.IsSameScratch scratch.old scratch.new }
{
    plan_counted(
        cut_request(request, directories, entries),
        &mut sized[..directories],
        scratch,
        order,
        &mut sizes[..directories],
        &mut tables[..directories],
        &mut sectors[..entries],
    )
}

// Plans an image.
pub fn plan(
    directories: u32,
    entries: u32,
    request: Request<'_>,
    out: &mut PlanOut<'_>,
    scratch: &mut PlanScratch<'_>,
) -> Result<Sector, PlanError>
    ensures answer { told result
        ≡ answer_in (asked_in directories entries request.entry) (lent_in out.old scratch.old) }
    ensures memory { lent_in out.new scratch.new
        ≡ lent_after (asked_in directories entries request.entry) (lent_in out.old scratch.old) }
    ensures same { IsSameOut out.old out.new × IsSameScratch scratch.old scratch.new }
{
    let d = directories as usize;
    let e = entries as usize;
    if !has_room(d, e, request, out, scratch) {
        return Err(PlanError::Room);
    }
    let mut table = TableScratch {
        left: &mut *scratch.left,
        right: &mut *scratch.right,
        parent: &mut *scratch.parent,
        height: &mut *scratch.height,
        key: &mut *scratch.key,
        size: &mut *scratch.size,
    };
    let planned = plan_cut(
        d,
        e,
        request,
        scratch.sized,
        &mut table,
        scratch.order,
        out.sizes,
        out.tables,
        out.sectors,
    );
    clear_scratch(scratch);
    planned
}
