// Whether the directories of an image are a tree.
#![tactic(auto)]

ghost use Rattle.std.specs.Prelude.{◌≡◌, ◌<◌, true, length};
ghost use Rattle.avl_arena.specs.Test.{every};
ghost use Rattle.img_model.specs.Shares.{first_of, count_of, part, is_tree};
ghost use Rattle.img_model.specs.Columns.{columns_in};
ghost use Rattle.img_tree.specs.inner.Marks.{Even, entries, is_free, marked_at, is_entry_free, entry_marked, Marks};
ghost use Rattle.img_tree.specs.inner.Marks.{is_markable, Marked, is_part_markable, is_named};

use dirtab_entry::Kind;
use img_model::Request;
use scratch::clear;

// Marks the directory x, which an entry of directory d names: false where it is d, an earlier one or none, or is
// marked.
fn mark(d: usize, x: u64, named: &mut [u32]) -> bool
    ensures { (result ≡ is_free named.old d x) × (named.new ≡ marked_at named.old d x) }
{
    if x <= (d as u64) {
        return false;
    }
    if (named.len() as u64) <= x {
        return false;
    }
    let at = x as usize;
    if named[at] != 0 {
        return false;
    }
    named[at] = 1;
    true
}

// The same for any entry of directory d: a file names none.
// (`kind` is the number that C's column holds, and is made a Kind here.)
fn mark_entry(d: usize, kind: u8, value: u64, named: &mut [u32]) -> bool
    ensures { (result ≡ is_entry_free named.old d kind value) × (named.new ≡ entry_marked named.old d kind value) }
{
    match Kind::from(kind) {
        Kind::Directory => mark(d, value, named),
        Kind::File => true,
    }
}

// Marks the directories that the entries of directory d name.
fn mark_share(d: usize, kind: &[u8], value: &[u64], named: &mut [u32]) -> bool
    requires { (length value.now ≡ length kind.now) × Marks named.old }
    ensures answer { result ≡ is_markable named.old d (entries (length kind.now) kind.now value.now) }
    ensures marks { result ≡ true → Marked named.old (entries (length kind.now) kind.now value.now) named.new }
{
    for i in 0..kind.len() {
        if !mark_entry(d, kind[i], value[i], named) {
            return false;
        }
    }
    true
}

// The same for the whole of directory d: false where its share reaches past the list of entries.
fn mark_directory(d: usize, request: Request<'_>, named: &mut [u32]) -> bool
    requires { Even (columns_in request) (length named.old) × Marks named.old × (d < length request.from.now) }
    ensures answer { let R = columns_in request.entry in
        result ≡ is_part_markable named.old d (first_of R d) (count_of R d) R.kind R.value }
    ensures marks { let R = columns_in request.entry in
        result ≡ true → Marked named.old (entries (count_of R d) (part (first_of R d) (count_of R d) R.kind)
        (part (first_of R d) (count_of R d) R.value)) named.new }
{
    let from = request.from[d] as usize;
    let to = from + (request.share[d] as usize);
    if request.kind.len() < to {
        return false;
    }
    mark_share(d, &request.kind[from..to], &request.value[from..to], named)
}

// Every directory but the root is marked.
fn all_marked(named: &[u32]) -> bool
    ensures { result ≡ every (is_named named.now) (length named.now) }
{
    named.iter().skip(1).all(|mark| *mark == 1)
}

// There is a directory, every share lies in the list, and every directory but the root is named exactly once, by an
// earlier one. `named` is scratch.
pub fn is_tree(request: Request<'_>, named: &mut [u32]) -> bool
    requires { Even (columns_in request) (length named.old) }
    ensures { result ≡ is_tree (columns_in request.entry) }
{
    if request.from.is_empty() {
        return false;
    }
    clear(named);
    for d in 0..request.from.len() {
        if !mark_directory(d, request, named) {
            return false;
        }
    }
    all_marked(named)
}
