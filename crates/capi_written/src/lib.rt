// An answer of writing as a number and cells, as crate capi_cells has those of reading. Each contract is over what the
// answer is told as (capi_cells/specs/Cells.antt).
// They are for C, which has no Result; the rows of cells are those that the C function has. A line that ends in a
// remark is the place of an edit in must-fail/.
#![tactic(auto)]

ghost use Rattle.std.specs.Prelude.{◌≡◌};
ghost use Rattle.units.specs.Told.{number_of};
ghost use Rattle.dirtab.specs.Serialise as serialising;
ghost use Rattle.dirtab_add.specs.Add as adding;
ghost use Rattle.dirtab_list.specs.Whole as whole;
ghost use Rattle.img_model.specs.Plan as planning;
ghost use Rattle.layout_sector.specs.Counter as sectors;
ghost use Rattle.layout_volume.specs.Descriptor as volume;
ghost use Rattle.capi_cells.specs.Cells.{of_given, of_refusal};
ghost use Rattle.capi_cells.specs.Parts.{itself};
ghost use Rattle.capi_written.specs.Parts.{of_entry, of_planned, of_directory, grown_root, grown_count, size_of_table};
ghost use Rattle.capi_written.specs.Parts.{next_free, run_start, run_free};

use dirtab::{SerialiseError, Written};
use dirtab_add::AddError;
use dirtab_arena::Held;
use dirtab_list::ListError;
use img_model::PlanError;
use layout_sector::{SectorCounter, SectorOverflow};
use layout_volume::BufferTooSmall;
use units::Sector;

// Writing a descriptor has no values.
pub fn number_of_written(answer: Result<(), BufferTooSmall>) -> u32
    ensures { result ≡ number_of (volume.write_told answer) }
{
    match answer {
        Ok(()) => 0,
        Err(e) => e.number(), // of a descriptor
    }
}

// The next free sector, and the first of the sectors taken.
pub fn store_taken(
    answer: Result<(Sector, SectorCounter), SectorOverflow>,
    next: &mut u32,
    start: &mut u32,
) -> u32
    ensures number { result ≡ number_of (sectors.told answer) }
    ensures next { next.new ≡ of_given run_free (sectors.told answer) next.old }
    ensures start { start.new ≡ of_given run_start (sectors.told answer) start.old }
{
    match answer {
        Ok((first, counter)) => {
            *next = counter.next_free().number();
            *start = first.number();
            0
        }
        Err(e) => e.number(), // of sectors
    }
}

// Root and count of the held tree.
pub fn store_added(answer: Result<Held, AddError>, root: &mut u16, count: &mut u16) -> u32
    ensures number { result ≡ number_of (adding.told answer) }
    ensures root { root.new ≡ of_given grown_root (adding.told answer) root.old }
    ensures count { count.new ≡ of_given grown_count (adding.told answer) count.old }
{
    match answer {
        Ok(tree) => {
            *root = tree.root;
            *count = tree.count;
            0
        }
        Err(e) => e.number(), // of adding
    }
}

// The reported size and the next free sector.
pub fn store_serialised(
    answer: Result<Written, SerialiseError>,
    table_size: &mut u32,
    free: &mut u32,
) -> u32
    ensures number { result ≡ number_of (serialising.told answer) }
    ensures table_size { table_size.new ≡ of_given size_of_table (serialising.told answer) table_size.old }
    ensures free { free.new ≡ of_given next_free (serialising.told answer) free.old }
{
    match answer {
        Ok(table) => {
            *table_size = table.size;
            *free = table.free.number();
            0
        }
        Err(e) => e.number(), // of an arena
    }
}

// The same of a whole list; of a refusal the number of the entry.
#[tactic(auto, unfolding(read_entry::specs::Links::is_in), using(crate::proofs::Causes::cause_listed))]
pub fn store_written(
    answer: Result<Written, ListError>,
    table_size: &mut u32,
    free: &mut u32,
    entry: &mut u32,
) -> u32
    ensures number { result ≡ number_of (whole.told answer) }
    ensures table_size { table_size.new ≡ of_given size_of_table (whole.told answer) table_size.old }
    ensures free { free.new ≡ of_given next_free (whole.told answer) free.old }
    ensures entry { entry.new ≡ of_refusal of_entry (whole.told answer) entry.old }
{
    match answer {
        Ok(table) => {
            *table_size = table.size;
            *free = table.free.number();
            0
        }
        Err(e) => {
            if let ListError::Refused(_, i) = e {
                *entry = i;
            }
            e.number() // of a list
        }
    }
}

// The next free sector of a plan; of a refusal the entry's place in the list, or the directory's number.
#[tactic(auto, unfolding(read_entry::specs::Links::is_in), using(crate::proofs::Causes::causes_of_plan))]
pub fn store_planned(
    answer: Result<Sector, PlanError>,
    free: &mut u32,
    entry: &mut u32,
    directory: &mut u32,
) -> u32
    ensures number { result ≡ number_of (planning.told answer) }
    ensures free { free.new ≡ of_given itself (planning.told answer) free.old }
    ensures entry { entry.new ≡ of_refusal of_planned (planning.told answer) entry.old }
    ensures directory { directory.new ≡ of_refusal of_directory (planning.told answer) directory.old }
{
    match answer {
        Ok(sector) => {
            *free = sector.number();
            0
        }
        Err(e) => {
            match e {
                PlanError::FileTooLarge(i) => *entry = i,
                PlanError::Refused(_, i) => *entry = i,
                PlanError::TooManyDirectoryEntries(d) | PlanError::SectorOverflow(d) => *directory =
                    d,
                PlanError::Room | PlanError::BadTree => {}
            }
            e.number() // of a plan
        }
    }
}
