//! Laws of items. Each is the contract of a function that does nothing.

ghost use Rattle.std.specs.Prelude.{◌≡◌, ◌≢◌, ◌<◌, ◌≤◌, ◌-◌, ℕ, Bool, true, List, All};
ghost use Rattle.maple_node.specs.declared.item.NodeItem.{NodeItem};
ghost use Rattle.maple_node.specs.Nodes.{node_items, words_of_items, items_end, Ascends, KeepsNoGap};
ghost use Rattle.maple_node.specs.Trees.{Pair, pairs_from, ApartFrom};
ghost use Rattle.maple_node.specs.Splices.{overwrite, widened_lo, widened_hi};
ghost use Rattle.maple_node.specs.Pairs.{overwritten, paired_slot};

/// What is written is read: the items of the words of a node are its items, where they end above page 0, and an entry of a
/// leaf keeps no gap.
pub fn written_items_are_read()
    ensures read { (leaf : Bool) (items : List NodeItem) → All (λ item. 0 < item.end) items → KeepsNoGap leaf items
        → node_items leaf (words_of_items leaf items) ≡ items }
    ensures ascending { (leaf : Bool) (start : ℕ) (items : List NodeItem) → Ascends start items → KeepsNoGap leaf items
        → node_items leaf (words_of_items leaf items) ≡ items }
{}

/// Entries that cover the pages from 0 up to a limit still do once some pages are overwritten, and their pairs are the old
/// ones with these pages overwritten.
pub fn overwriting_replaces_pairs()
    ensures pairs { (lo hi word : ℕ) (entries : List NodeItem) → Ascends 0 entries → lo < hi → hi ≤ items_end 0 entries
        → pairs_from 0 (overwrite lo hi word entries) ≡ overwritten lo hi word (pairs_from 0 entries) }
    ensures ascend { (lo hi word : ℕ) (entries : List NodeItem) → Ascends 0 entries → lo < hi → hi ≤ items_end 0 entries
        → Ascends 0 (overwrite lo hi word entries) }
    ensures limit { (lo hi word : ℕ) (entries : List NodeItem) → Ascends 0 entries → lo < hi → hi ≤ items_end 0 entries
        → items_end 0 (overwrite lo hi word entries) ≡ items_end 0 entries }
    ensures words { (lo hi word bound : ℕ) (entries : List NodeItem) → All (λ entry. entry.word ≤ bound) entries → word ≤ bound
        → All (λ entry. entry.word ≤ bound) (overwrite lo hi word entries) }
    ensures plain { (lo hi word : ℕ) (entries : List NodeItem) → KeepsNoGap true entries
        → KeepsNoGap true (overwrite lo hi word entries) }
{}

/// Two gaps never follow each other once some pages are overwritten by a slot. Where they become a gap, it takes in the gaps
/// beside it, which changes no pair.
pub fn gaps_stay_apart()
    ensures slot { (lo hi word : ℕ) (entries : List NodeItem) → Ascends 0 entries → ApartFrom 1 entries → lo < hi
        → hi ≤ items_end 0 entries → word ≢ 0 → ApartFrom 1 (overwrite lo hi word entries) }
    ensures low { (lo hi : ℕ) (entries : List NodeItem) → Ascends 0 entries → ApartFrom 1 entries → lo < hi
        → hi ≤ items_end 0 entries → widened_lo lo entries ≤ lo }
    ensures high { (lo hi : ℕ) (entries : List NodeItem) → Ascends 0 entries → ApartFrom 1 entries → lo < hi
        → hi ≤ items_end 0 entries → hi ≤ widened_hi hi entries }
    ensures limit { (lo hi : ℕ) (entries : List NodeItem) → Ascends 0 entries → ApartFrom 1 entries → lo < hi
        → hi ≤ items_end 0 entries → widened_hi hi entries ≤ items_end 0 entries }
    ensures gap { (lo hi : ℕ) (entries : List NodeItem) → Ascends 0 entries → ApartFrom 1 entries → lo < hi
        → hi ≤ items_end 0 entries → ApartFrom 1 (overwrite (widened_lo lo entries) (widened_hi hi entries) 0 entries) }
    ensures pairs { (lo hi : ℕ) (entries : List NodeItem) → Ascends 0 entries → ApartFrom 1 entries → lo < hi
        → hi ≤ items_end 0 entries
        → pairs_from 0 (overwrite (widened_lo lo entries) (widened_hi hi entries) 0 entries) ≡ overwritten lo hi 0 (pairs_from 0 entries) }
{}

/// Pairs with some pages overwritten give each of these pages the new slot, or none, and each other page what they gave it.
pub fn overwritten_pages()
    ensures slot { (lo hi word page : ℕ) (pairs : List Pair) → lo ≤ page → page < hi → word ≢ 0
        → paired_slot page (overwritten lo hi word pairs) ≡ Some (word - 1) }
    ensures gap { (lo hi page : ℕ) (pairs : List Pair) → lo ≤ page → page < hi
        → paired_slot page (overwritten lo hi 0 pairs) ≡ None }
    ensures below { (lo hi word page : ℕ) (pairs : List Pair) → lo ≤ hi → page < lo
        → paired_slot page (overwritten lo hi word pairs) ≡ paired_slot page pairs }
    ensures above { (lo hi word page : ℕ) (pairs : List Pair) → lo ≤ hi → hi ≤ page
        → paired_slot page (overwritten lo hi word pairs) ≡ paired_slot page pairs }
{}
