// The header of a page, field by field, on the lent bytes of that page (document 01, section 2; page.rs).
// Module pool is about all pages, module key about the keys in them.
//
// A page is 4096 bytes; page p stands at p * 4096 of the pool. Numbers are little-endian.
//
//     0      1      2           6       8           12                                              4096
//     +------+------+-----------+-------+-----------+-----------------------------------------------+
//     | type | root |  parent   | count | next leaf | cells, one after another; zeros after them    |
//     +------+------+-----------+-------+-----------+-----------------------------------------------+
//       u8     u8       u32        u16      u32       4084 bytes
//
//     type       0 internal, 1 leaf; any other number is a fault of the page
//     root       set to 1 where a root is made; nothing judges it
//     parent     the page above; 0 on the root
//     count      the cells of a leaf, or the keys of an internal page
//     next leaf  the leaf to the right, 0 on the last; on an internal page these bytes stay as they are
//     cells      a leaf: count cells, as crate `row` draws one
//                an internal page: child 0, then count pairs of key and child (1 to 510):
//
//     12        16        20        24        28                 16 + 8 * count
//     +---------+---------+---------+---------+---------+-- .. --+
//     | child 0 |  key 0  | child 1 |  key 1  | child 2 |        |    each four bytes; key i at 16 + 8 * i,
//     +---------+---------+---------+---------+---------+-- .. --+    child i at 12 + 8 * i, left of key i
#![tactic(auto)]

pub mod key;
pub mod pool;

ghost use Rattle.std.specs.Prelude.{◌≡◌, ◌≤◌, length};
ghost use Rattle.page.specs.Header.{node_type, parent_of, cell_count, next_leaf, with_node_type, with_is_root, with_parent, with_count, header_size};

// Offsets of the header's fields, as page.rs names them; the next leaf has no name there.
pub const PAGE_SIZE: usize = 4096;

pub const NODE_TYPE_OFFSET: usize = 0;

pub const IS_ROOT_OFFSET: usize = 1;

pub const PARENT_PAGE_OFFSET: usize = 2;

pub const CELL_COUNT_OFFSET: usize = 6;

pub const NEXT_LEAF_OFFSET: usize = 8;

pub const HEADER_SIZE: usize = 12;

// What a leaf's cells may fill.
pub const LEAF_ROOM: usize = 4084;

pub const NODE_INTERNAL: u8 = 0;

pub const NODE_LEAF: u8 = 1;

// 0 for an internal page, 1 for a leaf; any other number is no page, which its reader judges.
pub fn get_node_type(pg: &[u8]) -> u8
    requires { header_size ≤ length pg.now }
    ensures { result ≡ node_type pg.now }
{
    store::get8(pg, NODE_TYPE_OFFSET)
}

// Makes the page internal (0) or a leaf (1).
pub fn set_node_type(pg: &mut [u8], kind: u8)
    requires { header_size ≤ length pg.old }
    ensures { pg.new ≡ with_node_type kind pg.old }
{
    store::put8(pg, NODE_TYPE_OFFSET, kind)
}

// 1 for a root, 0 for any other page.
pub fn set_is_root(pg: &mut [u8], flag: u8)
    requires { header_size ≤ length pg.old }
    ensures { pg.new ≡ with_is_root flag pg.old }
{
    store::put8(pg, IS_ROOT_OFFSET, flag)
}

// The number of the page above; 0 for a root.
pub fn get_parent(pg: &[u8]) -> u32
    requires { header_size ≤ length pg.now }
    ensures { result ≡ parent_of pg.now }
{
    store::get32(pg, PARENT_PAGE_OFFSET)
}

// The link to the page above; 0 for a root.
pub fn set_parent(pg: &mut [u8], parent: u32)
    requires { header_size ≤ length pg.old }
    ensures { pg.new ≡ with_parent parent pg.old }
{
    store::put32(pg, PARENT_PAGE_OFFSET, parent)
}

// How many cells a leaf has, or how many keys an internal page.
pub fn get_cell_count(pg: &[u8]) -> u16
    requires { header_size ≤ length pg.now }
    ensures { result ≡ cell_count pg.now }
{
    store::get16(pg, CELL_COUNT_OFFSET)
}

// How many cells a leaf is to have, or keys an internal page; the cells stay as they are.
pub fn set_cell_count(pg: &mut [u8], count: u16)
    requires { header_size ≤ length pg.old }
    ensures { pg.new ≡ with_count count pg.old }
{
    store::put16(pg, CELL_COUNT_OFFSET, count)
}

// The number of the leaf to the right; 0 for the last one.
pub fn get_next_leaf(pg: &[u8]) -> u32
    requires { header_size ≤ length pg.now }
    ensures { result ≡ next_leaf pg.now }
{
    store::get32(pg, NEXT_LEAF_OFFSET)
}
