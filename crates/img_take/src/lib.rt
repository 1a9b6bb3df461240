// Sectors are taken from the root forward: first it is seen whether every table can be placed, then every table and
// entry gets its sector.
#![tactic(auto)]

ghost use Rattle.std.specs.Prelude.{◌≡◌, true, List, [], ℕ, ◌+◌, ◌-◌, ◌≤◌, ◌<◌, eqb, length, set};
ghost use Rattle.units.specs.Told.{gives, pick};
ghost use Rattle.layout_sector.specs.Counter.{sectors_for};
ghost use Rattle.table_model.specs.Place.{free_of};
ghost use Rattle.dirtab_place.specs.inner.Places.{told_free};
ghost use Rattle.avl_model.specs.Names as names;
ghost use Rattle.img_model.specs.Shares.{share_of, first_of, count_of, part};
ghost use Rattle.img_model.specs.Plan.{table_in, entry_in, total, taking_up, rooted};
ghost use Rattle.img_model.specs.Plan as plan;
ghost use Rattle.img_model.specs.Columns.{columns_in, share_in};
ghost use Rattle.img_take.specs.inner.Forward.{Sized, taking, free_told, told_placed, Turn, Treed};
ghost use Rattle.img_take.specs.inner.Forward.{with_names, share_with, nameless, limited, take_one, take_along};
ghost use Rattle.img_take.specs.inner.Forward.{Enters, EntersAll};
ghost use Rattle.img_take.specs.inner.Taken.{taking_in, IsAsLong, IsSame};

use avl_model::Names;
use dirtab_entry::Kind;
use dirtab_place::{count_sectors, stored_at};
use img_model::{PlanError, Request, Share};
use img_table::fill_sizes;
use layout_sector::{SectorCounter, SectorOverflow};
use units::Sector;

// The first directory whose table cannot be placed.
#[derive(Clone, Copy, Debug, PartialEq, Eq)]
pub enum PlacingError {
    // 7: an offset over 4 exceeds 65,535.
    TooManyDirectoryEntries(u32),
    // 8: the next free sector after its entries would exceed 4,294,967,295.
    SectorOverflow(u32),
}

impl From<PlacingError> for PlanError {
    ghost use Rattle.img_take.specs.inner.Forward.{plan_error};

    ghost from_gives = { λ e r. r ≡ plan_error e };

    fn from(e: PlacingError) -> PlanError {
        match e {
            PlacingError::TooManyDirectoryEntries(d) => PlanError::TooManyDirectoryEntries(d),
            PlacingError::SectorOverflow(d) => PlanError::SectorOverflow(d),
        }
    }
}

// An image whose tables are sized: the reported size of each table, and the preorder of each one's entries, the last
// directory's first. The request's names are not looked at.
// (That the sizes and orders are those of the request is a named fact, `Sized`, and no invariant: it speaks of a
// column of scratch beside the struct too.)
#[derive(Clone, Copy)]
pub struct SizedTables<'a> {
    pub request: Request<'a>,
    pub sized: &'a [u32],
    pub order: &'a [u16],
}

impl<'a> SizedTables<'a> {
    // The order of directory d, which ends at `to`.
    fn order_of(self, d: usize, to: usize) -> &'a [u16]
        requires { (d < length self.request.share.now) × (to ≤ length self.order.now)
            × (count_of (columns_in self.request) d ≤ to) }
        ensures { let n = count_of (columns_in self.entry.request) d in
            result.now ≡ part (to - n) n self.entry.order.now }
    {
        let from = to - self.request.share[d] as usize;
        &self.order[from..to]
    }

    // The entries of directory d, without their names.
    fn entries_of(self, d: usize) -> Share<'a>
        requires is_one { (d < length self.request.from.now) × (d < length self.request.share.now) }
        requires inside { let R = columns_in self.request in
            (first_of R d + count_of R d ≤ length R.kind) × (first_of R d + count_of R d ≤ length R.value) }
        ensures { share_in result ≡ share_with (share_of (columns_in self.entry.request) d) nameless }
    {
        let from = self.request.from[d] as usize;
        let to = from + self.request.share[d] as usize;
        Share {
            names: Names {
                bytes: &[],
                start: &[],
                len: &[],
            },
            kind: &self.request.kind[from..to],
            value: &self.request.value[from..to],
        }
    }
}

// The counter past the root table, which stands first. Four bytes hold no size for which there are too few sectors.
fn take_root(size: u32) -> SectorCounter
    ensures { result.next.0 ≡ 33 + sectors_for size }
{
    let (_, next) = SectorCounter::new().take(u64::from(size)).unwrap();
    next
}

// The next free sector after the entries of one directory, which are in preorder.
fn count_table(
    order: &[u16],
    share: Share<'_>,
    sized: &[u32],
    size: &mut [u32],
    free: Sector,
) -> Result<Sector, SectorOverflow>
    requires { (N : names.Names) × Treed order.now (share_with (share_in share) N) sized.now (length size.old) }
    ensures { (N : names.Names) → let S = share_with (share_in share.entry) N in
        (w : Treed order.now S sized.now (length size.old)) →
        told_free result ≡ limited (free_of (entry_in S (table_in sized.now)) 1 free.0 w.t) }
{
    fill_sizes(share, sized, size);
    count_sectors(order, size, share.kind, free)
}

// Whether the table of directory d can be placed: the next free sector after its entries. `to` is where its order
// ends. An offset over 4 exceeds 65,535 exactly where the table's size exceeds 262,144, since no entry crosses that
// sector line.
fn check_table(
    d: usize,
    to: usize,
    tables: SizedTables<'_>,
    size: &mut [u32],
    free: Sector,
) -> Result<Sector, PlacingError>
    requires { (N : names.Names) × Turn (with_names (columns_in tables.request) N) tables.sized.now tables.order.now
        (length size.old) d to }
    ensures { let t = tables.entry in (N : names.Names) → let R = with_names (columns_in t.request) N in
        Turn R t.sized.now t.order.now (length size.old) d to →
        told_placed result ≡ free_told (taking_up R t.sized.now 1 d (taking [] [] free.0)) }
{
    if 262144 < tables.sized[d] {
        return Err(PlacingError::TooManyDirectoryEntries(d as u32));
    }
    let share = tables.entries_of(d);
    match count_table(tables.order_of(d, to), share, tables.sized, size, free) {
        Ok(next) => Ok(next),
        Err(SectorOverflow) => Err(PlacingError::SectorOverflow(d as u32)),
    }
}

// Whether every table can be placed, in turn from the root on: the next free sector after all of them. `end` is where
// the root's order ends: the last directory's is the first.
pub fn check_tables(
    tables: SizedTables<'_>,
    end: usize,
    size: &mut [u32],
) -> Result<Sector, PlacingError>
    requires sized { (N : names.Names) × Sized (with_names (columns_in tables.request) N) tables.sized.now
        tables.order.now (length size.old) }
    requires end { end ≡ total tables.request.share.now }
    ensures { let t = tables.entry in (N : names.Names) → let R = with_names (columns_in t.request) N in
        Sized R t.sized.now t.order.now (length size.old) → (first sectors : List ℕ) → told_placed result
        ≡ free_told (taking_up R t.sized.now (length R.from) 0 (rooted R t.sized.now first sectors)) }
{
    let mut free = take_root(tables.sized[0]).next_free();
    let mut to = end;
    for (d, &count) in tables.request.share.iter().enumerate() {
        free = check_table(d, to, tables, size, free)?;
        to -= count as usize;
    }
    Ok(free)
}

// An entry that names a directory gives its table the sector.
// (`kind` is the number that C's column holds, and is made a Kind here.)
fn name_table(kind: u8, value: u64, sector: u32, tables: &mut [u32])
    requires { eqb kind 1 ≡ true → value < length tables.old }
    ensures { tables.new ≡ pick (eqb kind 1) (set tables.old value sector) tables.old }
{
    if Kind::from(kind) == Kind::Directory {
        tables[value as usize] = sector;
    }
}

// What is taken so far: the sector of each table, the sector of each entry, and the counter past them.
#[derive(Drop)]
struct Taking<'a> {
    tables: &'a mut [u32],
    sectors: &'a mut [u32],
    counter: SectorCounter,
}

impl Taking<'_> {
    // The entry i of the directory whose first stands at `first` takes its sectors. That they can be taken is asked.
    fn take_entry(&mut self, i: usize, share: Share<'_>, size: &[u32], first: usize)
        requires enters { let t = self.old in
            Enters share.kind.now share.value.now size.now first i (length t.tables.now) (length t.sectors.now) }
        requires fits { (take_one share.kind.now share.value.now size.now first (taking_in self.old) i).free
            ≤ 4294967295 }
        ensures taken { let s = share.entry in
            taking_in self.new ≡ take_one s.kind.now s.value.now size.now first (taking_in self.old) i }
        ensures long { IsAsLong self.old self.new }
        ensures same { IsSame self.old self.new }
    {
        let bytes = stored_at(size, share.kind, i);
        let (start, next) = self.counter.take(u64::from(bytes)).unwrap();
        let sector = start.number();
        self.counter = next;
        self.sectors[first + i] = sector;
        name_table(share.kind[i], share.value[i], sector, self.tables);
    }

    // The entries of the directory whose first stands at `first` take their sectors in the order given.
    fn take_entries(&mut self, order: &[u16], share: Share<'_>, size: &[u32], first: usize)
        requires enters { let t = self.old in
            EntersAll order.now share.kind.now share.value.now size.now first (length t.tables.now)
            (length t.sectors.now) }
        requires fits { (take_along share.kind.now share.value.now size.now first (taking_in self.old)
            order.now).free ≤ 4294967295 }
        ensures taken { let s = share.entry in
            taking_in self.new ≡ take_along s.kind.now s.value.now size.now first (taking_in self.old) order.now }
        ensures long { IsAsLong self.old self.new }
        ensures same { IsSame self.old self.new }
    {
        for &number in order {
            self.take_entry(number as usize, share, size, first);
        }
    }

    // The entries of directory d take their sectors. `to` is where its order ends.
    fn take_table(&mut self, d: usize, to: usize, tables: SizedTables<'_>, size: &mut [u32])
        requires turn { (N : names.Names) × (let R = with_names (columns_in tables.request) N in
            Turn R tables.sized.now tables.order.now (length size.old) d to
            × ((p : plan.Taking) × (taking_up R tables.sized.now 1 d (taking_in self.old) ≡ gives p))) }
        requires long { (length self.old.tables.now ≡ length tables.request.from.now)
            × (length self.old.sectors.now ≡ length tables.request.kind.now) }
        ensures taken { let t = tables.entry in
            (N : names.Names) → let R = with_names (columns_in t.request) N in
            Turn R t.sized.now t.order.now (length size.old) d to → (p : plan.Taking) →
            taking_up R t.sized.now 1 d (taking_in self.old) ≡ gives p →
            gives (taking_in self.new) ≡ taking_up R t.sized.now 1 d (taking_in self.old) }
        ensures long { IsAsLong self.old self.new }
        ensures same { IsSame self.old self.new }
    {
        let share = tables.entries_of(d);
        fill_sizes(share, tables.sized, size);
        let first = tables.request.from[d] as usize;
        self.take_entries(tables.order_of(d, to), share, size, first);
    }

    // The entries of every directory take their sectors, from the root on. `end` is where the root's order ends.
    fn take_all(&mut self, tables: SizedTables<'_>, end: usize, size: &mut [u32])
        requires sized { (N : names.Names) × (let R = with_names (columns_in tables.request) N in
            Sized R tables.sized.now tables.order.now (length size.old)
            × ((p : plan.Taking) × (taking_up R tables.sized.now (length R.from) 0 (taking_in self.old) ≡ gives p))) }
        requires end { end ≡ total tables.request.share.now }
        requires long { (length self.old.tables.now ≡ length tables.request.from.now)
            × (length self.old.sectors.now ≡ length tables.request.kind.now) }
        ensures taken { let t = tables.entry in
            (N : names.Names) → let R = with_names (columns_in t.request) N in
            Sized R t.sized.now t.order.now (length size.old) → (p : plan.Taking) →
            taking_up R t.sized.now (length R.from) 0 (taking_in self.old) ≡ gives p → taking_in self.new ≡ p }
        ensures same { IsSame self.old self.new }
    {
        let mut to = end;
        for (d, &count) in tables.request.share.iter().enumerate() {
            self.take_table(d, to, tables, size);
            to -= count as usize;
        }
    }
}

// Every table and entry gets its sector, where every table can be placed. `end` is where the root's order ends.
pub fn take_tables(
    tables: SizedTables<'_>,
    end: usize,
    size: &mut [u32],
    first: &mut [u32],
    sectors: &mut [u32],
)
    requires sized { (N : names.Names) × (let R = with_names (columns_in tables.request) N in
        Sized R tables.sized.now tables.order.now (length size.old)
        × ((p : plan.Taking) × (taking_up R tables.sized.now (length R.from) 0
        (rooted R tables.sized.now first.old sectors.old) ≡ gives p))) }
    requires end { end ≡ total tables.request.share.now }
    requires long { (length first.old ≡ length tables.request.from.now)
        × (length sectors.old ≡ length tables.request.kind.now) }
    ensures { let t = tables.entry in (N : names.Names) → let R = with_names (columns_in t.request) N in
        Sized R t.sized.now t.order.now (length size.old) → (p : plan.Taking) →
        taking_up R t.sized.now (length R.from) 0 (rooted R t.sized.now first.old sectors.old) ≡ gives p →
        (first.new ≡ p.tables) × (sectors.new ≡ p.sectors) }
{
    first[0] = SectorCounter::FIRST;
    let mut taking = Taking {
        tables: first,
        sectors,
        counter: take_root(tables.sized[0]),
    };
    taking.take_all(tables, end, size);
}
