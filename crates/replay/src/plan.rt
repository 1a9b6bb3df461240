// Recorded plans: the front door plans the same directories, and the answer's number and all that is lent are
// compared. crates/replay/src/main.rt describes the records.
ghost use Rattle.std.specs.Prelude.{◌≡◌, ◌<◌, ◌≤◌, length};
ghost use Rattle.units.specs.Told.{number_of};
ghost use Rattle.img_model.specs.Plan as planning;

use crate::record::Record;
use xdvdfs::{Names, PlanError, PlanOut, PlanScratch, Request, Sector};

// The number of a refused plan (docs/SCOPE.md); 0 where it is planned.
fn number_of(r: Result<Sector, PlanError>) -> u32
    ensures { result ≡ number_of (planning.told r) }
{
    match r {
        Ok(_) => 0,
        Err(e) => e.number(),
    }
}

// Whether each place holds 0.
fn are_zero(s: &[u16]) -> bool {
    s.iter().all(|x| *x == 0)
}

// The same of places of four bytes.
fn are_zero_words(s: &[u32]) -> bool {
    s.iter().all(|x| *x == 0)
}

// Whether the scratch of a plan is clear.
fn is_clear(scratch: &PlanScratch<'_>) -> bool {
    are_zero_words(scratch.sized)
        && are_zero(scratch.left)
        && are_zero(scratch.right)
        && are_zero(scratch.parent)
        && layout_bytes::all_are(scratch.height, 0)
        && are_zero_words(scratch.key)
        && are_zero_words(scratch.size)
        && are_zero(scratch.order)
}

// Plans the recorded directories and entries: whether the number is the recorded one, and the scratch clear
// afterwards.
fn plan_recorded(r: Record<'_>, request: Request<'_>, out: &mut PlanOut<'_>) -> bool {
    let mut sized = [7u32; 16];
    let mut left = [7u16; 2112];
    let mut right = [7u16; 2112];
    let mut parent = [7u16; 2112];
    let mut height = [7u8; 2112];
    let mut key = [7u32; 2112];
    let mut size = [7u32; 2112];
    let mut order = [7u16; 2112];
    let mut scratch = PlanScratch {
        sized: &mut sized,
        left: &mut left,
        right: &mut right,
        parent: &mut parent,
        height: &mut height,
        key: &mut key,
        size: &mut size,
        order: &mut order,
    };
    let directories = r.short_at(5) as u32;
    let entries = r.short_at(7) as u32;
    let planned = xdvdfs::plan(directories, entries, request, out, &mut scratch);
    r.is(1, number_of(planned)) && is_clear(&scratch)
}

// Whether d directories and n entries were planned as recorded from a place on, and nothing else was written.
fn is_planned(
    r: Record<'_>,
    at: usize,
    d: usize,
    n: usize,
    sizes: &[u32],
    tables: &[u32],
    sectors: &[u32],
) -> bool
    requires { (at < 2000000) × (d < 65536) × (length sizes.now ≤ 65536) × (length tables.now ≤ 65536)
        × (length sectors.now ≤ 65536) }
{
    r.is_row(at, sizes, d, 7)
        && r.is_row(at + 4 * d, tables, d, 7)
        && r.is_row(at + 8 * d, sectors, n, 7)
}

// Whether what was planned is what is recorded; after a refusal nothing is written.
fn is_plan(r: Record<'_>, sizes: &[u32], tables: &[u32], sectors: &[u32]) -> bool
    requires { (length sizes.now ≤ 65536) × (length tables.now ≤ 65536) × (length sectors.now ≤ 65536) }
{
    let d = r.short_at(5);
    let n = r.short_at(7);
    let at = 11 + 8 * d + 17 * n + r.short_at(9);
    if r.is(1, 0) {
        return is_planned(r, at, d, n, sizes, tables, sectors);
    }
    is_planned(r, at, 0, 0, sizes, tables, sectors)
}

pub fn same_plan(r: Record<'_>) -> bool {
    let d = r.short_at(5);
    let n = r.short_at(7);
    let names = r.short_at(9);
    let entries = 11 + 8 * d;
    let mut from = [0u32; 16];
    let mut share = [0u32; 16];
    let mut start = [0u32; 2112];
    let mut len = [0u32; 2112];
    let mut value = [0u64; 2112];
    let mut sizes = [7u32; 16];
    let mut tables = [7u32; 16];
    let mut sectors = [7u32; 2112];
    r.fill(11, &mut from);
    r.fill(11 + 4 * d, &mut share);
    r.fill(entries, &mut start);
    r.fill(entries + 4 * n, &mut len);
    r.fill_long(entries + 8 * n, &mut value);
    let request = Request {
        from: &from,
        share: &share,
        names: Names {
            bytes: r.part(entries + 17 * n, names),
            start: &start,
            len: &len,
        },
        kind: r.part(entries + 16 * n, n),
        value: &value,
    };
    let mut out = PlanOut {
        sizes: &mut sizes,
        tables: &mut tables,
        sectors: &mut sectors,
    };
    plan_recorded(r, request, &mut out) && is_plan(r, &sizes, &tables, &sectors)
}
