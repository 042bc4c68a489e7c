//! Nodes of the tree of areas: rows of 32 words, what they list, and the layout of a tree over rows; and items of nodes as short lists:
//! how they are shared out among nodes, and what becomes of entries where some pages get a slot or become a gap.

// The problem. Readers load a tree word by word, from shared words, so a node must be plain words, whose meaning doesn't depend on what was read
// before. This crate says what 32 words mean as a node, and when rows of words are a tree. It has no tree itself: node_slots has the shared
// words.
//
//    leaf     word  0   1      2   3      ..  30  31
//                   end slot+1 end slot+1     end slot+1           at most 16 entries; 0 in place of slot + 1 is a gap
//    inner    word  0   1   2  3   4   5  ..  27  28  29 30 31
//                   end row gap end row gap   end row gap 0  0     at most 10 children; gap is the largest gap under the child, in pages
//
//    root     bit   63 .. 24           23 .. 20   19 .. 0
//                   number of the tree   height   row of the root  (height 1: the root is a leaf)
//
// `end` is the first page after an item; the item begins where the one before it ends, and the first item of a node where the node begins, which
// its parent tells. The items of a node end at the first word that is 0 in place of an end: an end is above 0. What follows is zeros, so that
// equal nodes have equal words, and a new version of a node differs from the old one in few words.
//
// When rows are a tree (`IsLayout`): every row that is pointed to is a node (`IsNode`), from the root down. A node's items ascend and end where
// it does; its gap is its largest. It has at least 6 entries or 4 children, unless it ends at the limit of the tree: the nodes on the rightmost
// path, and so the root. The entries cover all pages up to the limit, and two gaps never follow each other. No row is reached twice.
//
// Why 6 and 4: these are Linux's (mt_min_slots of lib/maple_tree.c). With them 65,530 VMAs need nine levels at most, and 17 items always give two
// nodes with enough each (`share`). Why a number in the root word: one load finds a whole tree, and tells which call it is the
// list after. 40 bits are 10^12 calls; the height has 4 bits, and a row 20, which is enough for 65,530 + 128 rows.
//
// To be changed freely: little. Readers, stores and searches each know the form, through `width_of`, `listed_at` and `Layout`. Not to be changed:
// the bounds of a node, since height and the number of rows are proved from them.
//
// In Linux: struct maple_range_64 and maple_arange_64 of include/linux/maple_tree.h, with 16 slots and 10, pivots that are the last page of a
// range, and gaps in inner nodes alone. There a leaf's slots are pointers, and a node knows its parent.

// Items as short lists. A store of maple_write takes some items of a node, puts new ones between, and makes nodes of the result. Here are the
// steps of that on words and lists, apart from rows, levels and readers. Nothing takes memory: a list has room for 40 items in an array.
//
//    items that end by lo  │ new items │ items that end above hi        spliced lo hi new items
//    EndingBy(lo)            1 to 3      EndingAfter(hi)                `push_part`, `push_all`, `push_part`
//
// An item has only its end. So the entry that crosses hi needs no cut: it begins at hi once the new items end there. The entry that crosses lo is
// cut by a new item that ends at lo (`first` of maple_write). An entry is in the middle part if it ends above lo and not above hi.
//
// How many there are: at most 16 and 16 items of two nodes and 3 new ones, 35 of 40.
//
// How they are shared out (`share`): all in one node if there is room, else as many as leave enough for one more node, and never more than fit:
//
//    leaf, 17 items    11  6             inner, 11 children    7  4
//          22          16  6                    14            10  4
//          23          16  7
//          35          16 13  6                 23            10  9  4
//
// The shorter ways. `spliced_words` makes the words of one node from those of the old one, without a list: two runs of words are copied, and the
// new items are put between. `swap_child` writes two words of an inner node, if one child takes another's place. It answers the largest gap, and
// looks at the other children only if the old child had the largest and the new one has less (`gap_then`).
//
// What becomes of pairs. `overwritten` says it of spans and slots: parts below lo, the new pair, parts above hi. The laws tie it to the items, so
// that those above speak of pairs alone.
//
// To be changed freely: `share`, within the bounds of a node: each part but the last has at least the least, and none more than the most. Not
// to be changed: ROOM below 35. In Linux: mas_mab_cp and mab_mas_cp (items of nodes to a list and back), mab_calc_split (`share`), mas_max_gap
// (`gap_in`).

#![tactic(auto)]

mod codec;
mod item;
mod item_laws;
mod laws;
mod layout;
mod list;
mod node;
mod packed;
mod part;
mod place;
mod root;
mod splice;

pub use codec::{NODE_WORDS, least, listed_at, most, slot_of, slot_word, width_of};
pub use item::NodeItem;
pub use item_laws::{
    gaps_stay_apart, overwriting_replaces_pairs, overwritten_pages, written_items_are_read,
};
pub use laws::{
    depends_on_its_rows, entries_cover_pages, first_tree_is_empty, levels_are_subtrees,
    nodes_are_read_by_place, root_stands_once, rows_are_reached_once,
};
pub use layout::{Layout, inner_packing_is_undone, leaf_packing_is_undone};
pub use list::{ItemList, push_all, push_ending_after};
pub use node::{item_gap, lists_nothing, share};
pub use packed::{NodeWords, node_words};
pub use part::{Part, push_part};
pub use place::{Place, item_in};
pub use root::{Root, pack_root, root_packing_is_undone, unpack_root};
pub use splice::{gap_in, spliced_words, swap_child};
