// The bytes of a table, from its entries in columns and the offsets over 4 in another: 0xff everywhere, then entry
// after entry in an order.
#![tactic(auto)]

ghost use Rattle.std.specs.Prelude.{◌≡◌, ◌++◌, ◌+◌, ◌*◌, ◌≤◌, ◌<◌, length, get_or};
ghost use Rattle.layout_bytes.specs.inner.Bytes.{put_at};
ghost use Rattle.layout_node.specs.Header.{header_bytes};
ghost use Rattle.layout_sector.specs.Counter.{aligned_up};
ghost use Rattle.dirtab_place.specs.inner.Places.{free_in};
ghost use Rattle.table_model.specs.Entry.{attributes};
ghost use Rattle.table_model.specs.inner.Writing.{stored, written_over};
ghost use Rattle.dirtab_write.specs.inner.Columns.{cols_of, LinkIn, link_by, Headed, header_by, item_by, items_by};
ghost use Rattle.dirtab_write.specs.inner.Columns.{Numbered, Writes, Spaces, put_all};

use avl_model::{Branches, NONE, node_name};
use dirtab_entry::{Entries, Kind};
use dirtab_place::stored_at;
use layout_bytes::{fill, put_bytes};
use layout_node::{Header, put_header};
use layout_sector::SectorCounter;
use units::{Link, Sector};

// What a table is written of, by the numbers of its entries: the tree over them, the offset over 4 of each, and the
// entries. They are slices, since C lends the columns.
#[derive(Clone, Copy)]
pub struct Layout<'a> {
    pub branches: Branches<'a>,
    pub place: &'a [u16],
    pub entries: Entries<'a>,
}

// The attributes of a kind, as an image has them: 16 is the bit of a directory.
// (No From: `u8::from` of a kind is its number in a column.)
fn attributes_of(kind: Kind) -> u8
    ensures { result ≡ attributes kind }
{
    match kind {
        Kind::File => 32,
        Kind::Directory => 16,
    }
}

// A header and a name.
#[tactic(auto, using(crate::proofs::Steps::entry_put))]
fn put_entry(out: &mut [u8], at: usize, header: Header, name: &[u8])
    requires { at + 14 + length name.now ≤ length out.old }
    ensures { out.new ≡ put_at out.old at (header_bytes header ++ name.now) }
{
    put_header(out, at, header);
    put_bytes(out, at + 14, name);
}

impl<'a> Layout<'a> {
    // The link to a child: 0 where there is none.
    #[tactic(auto, using(crate::proofs::Steps::link_none, crate::proofs::Steps::link_some))]
    fn link_to(self, child: u16) -> Link
        requires { LinkIn self.place.now child }
        ensures { result.0 ≡ link_by self.entry.place.now child }
    {
        if child == NONE {
            return Link::new(0);
        }
        Link::new(self.place[child as usize])
    }

    // The header of entry i, whose name has so many bytes.
    fn header(self, i: usize, sector: Sector, name_len: u8) -> Header
        requires { Headed (cols_of self) i }
        ensures { result ≡ header_by (cols_of self.entry) i sector.0 name_len }
    {
        Header {
            left: self.link_to(self.branches.left[i]),
            right: self.link_to(self.branches.right[i]),
            sector,
            size: stored_at(self.entries.size, self.entries.kind, i),
            attributes: attributes_of(Kind::from(self.entries.kind[i])),
            name_len,
        }
    }

    // Entry i, at its offset.
    fn put_item(self, out: &mut [u8], number: u16, sector: Sector)
        requires { Numbered (cols_of self) (length out.old) number }
        ensures { let c = cols_of self.entry in
            out.new ≡ put_at out.old (4 * get_or c.place number 0) (stored (item_by c sector.0 number)) }
    {
        let i = number as usize;
        let name = node_name(self.entries.names, number);
        let header = self.header(i, sector, name.len() as u8);
        put_entry(out, 4 * (self.place[i] as usize), header, name);
    }

    // Entry i, at its offset and with the sectors that it takes; the answer is the counter past them. That they can be
    // taken is asked.
    fn put_node(self, out: &mut [u8], number: u16, counter: SectorCounter) -> SectorCounter
        requires { let c = cols_of self in
            Numbered c (length out.old) number
            × (free_in c.size c.kind counter.next.0 number ≤ 4294967295) }
        ensures counter { let c = cols_of self.entry in
            result.next.0 ≡ free_in c.size c.kind counter.next.0 number }
        ensures out { let c = cols_of self.entry in
            out.new ≡ put_at out.old (4 * get_or c.place number 0)
            (stored (item_by c (aligned_up 1 counter.next.0) number)) }
    {
        let bytes = stored_at(self.entries.size, self.entries.kind, number as usize);
        let (sector, next) = counter.take(bytes as u64).unwrap();
        self.put_item(out, number, sector);
        next
    }

    // The entries of the order, one after the other.
    #[tactic(auto, using(crate::proofs::Turns::last_put))]
    fn put_all(self, out: &mut [u8], order: &[u16], first: Sector)
        requires { Writes (cols_of self) order.now first.0 (length out.old) }
        ensures { out.new ≡ put_all (items_by (cols_of self.entry) first.0 order.now) out.old }
    {
        let mut counter = SectorCounter::starting_at(first);
        for &number in order {
            counter = self.put_node(out, number, counter);
        }
    }
}

// The table in the first n bytes: 0xff everywhere, then the entries.
#[tactic(auto, using(crate::proofs::Turns::table_put))]
pub fn write_table(out: &mut [u8], n: usize, order: &[u16], layout: Layout<'_>, first: Sector)
    requires { Spaces (cols_of layout) order.now first.0 n (length out.old) }
    ensures { out.new ≡ written_over n (items_by (cols_of layout.entry) first.0 order.now) out.old }
{
    fill(out, n, 0xff);
    layout.put_all(out, order, first);
}
