// Whether what is lent for a plan is long enough, and its columns of scratch cleared.
#![tactic(auto)]

ghost use Rattle.std.specs.Prelude.{◌≡◌, ◌≤◌, min, length};
ghost use Rattle.img_model.specs.Plan.{total};
ghost use Rattle.img_model.specs.Image.{fits, has_room};
ghost use Rattle.img_model.specs.Columns.{asked_in, lent_in, IsSameScratch};
ghost use Rattle.img_room.specs.inner.Cleared.{IsCleared};

use img_model::{PlanOut, PlanScratch, Request};
use scratch::clear;

// Each share, as far as the entries go, has its places in columns of n.
fn fit_shares(share: &[u32], entries: usize, n: usize) -> bool
    ensures { result ≡ fits n entries share.now }
{
    share
        .iter()
        .all(|count| (*count as usize).min(entries) <= n)
}

// How many entries the shares have together.
pub fn add_shares(share: &[u32]) -> u64
    requires { length share.now ≤ 4294967295 }
    ensures { result ≡ total share.now }
{
    share.iter().map(|count| u64::from(*count)).sum()
}

// Every column of scratch, zero everywhere.
pub fn clear_scratch(scratch: &mut PlanScratch<'_>)
    ensures zero { IsCleared scratch.old scratch.new }
    ensures same { IsSameScratch scratch.old scratch.new }
{
    clear(scratch.sized);
    clear(scratch.left);
    clear(scratch.right);
    clear(scratch.parent);
    clear(scratch.height);
    clear(scratch.key);
    clear(scratch.size);
    clear(scratch.order);
}

// The length of the shortest column that has a place for each directory.
fn measure_directories(request: Request<'_>, out: &PlanOut<'_>, scratch: &PlanScratch<'_>) -> usize
    ensures { let q = request.entry in
        result ≡ min (length q.from.now) (min (length q.share.now) (min (length out.now.sizes.now)
        (min (length out.now.tables.now) (length scratch.now.sized.now)))) }
{
    let lent = out.tables.len().min(scratch.sized.len());
    request
        .from
        .len()
        .min(request.share.len().min(out.sizes.len().min(lent)))
}

// The same for each entry.
fn measure_entries(request: Request<'_>, out: &PlanOut<'_>, scratch: &PlanScratch<'_>) -> usize
    ensures { let q = request.entry in
        result ≡ min (length q.names.start.now) (min (length q.names.len.now) (min (length q.kind.now)
        (min (length q.value.now) (min (length out.now.sectors.now) (length scratch.now.order.now))))) }
{
    request
        .names
        .start
        .len()
        .min(request.names.len.len())
        .min(request.kind.len())
        .min(request.value.len())
        .min(out.sectors.len())
        .min(scratch.order.len())
}

// The same for each node of a tree.
fn measure_nodes(scratch: &PlanScratch<'_>) -> usize
    ensures { let s = scratch.now in
        result ≡ min (length s.left.now) (min (length s.right.now) (min (length s.parent.now)
        (min (length s.height.now) (min (length s.key.now) (length s.size.now))))) }
{
    scratch
        .left
        .len()
        .min(scratch.right.len())
        .min(scratch.parent.len())
        .min(scratch.height.len())
        .min(scratch.key.len())
        .min(scratch.size.len())
}

// Every column is long enough for so many directories and entries.
#[tactic(auto, unfolding(img_model::specs::Image::has_room))]
pub fn has_room(
    directories: usize,
    entries: usize,
    request: Request<'_>,
    out: &PlanOut<'_>,
    scratch: &PlanScratch<'_>,
) -> bool
    ensures { result ≡ has_room (asked_in directories entries request.entry) (lent_in out.now scratch.now) }
{
    if measure_directories(request, out, scratch) < directories {
        return false;
    }
    if measure_entries(request, out, scratch) < entries {
        return false;
    }
    fit_shares(
        &request.share[..directories],
        entries,
        measure_nodes(scratch),
    )
}
