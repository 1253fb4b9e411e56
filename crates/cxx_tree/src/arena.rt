//! An arena of nodes, and what they refer to.
#![tactic(auto, using(crate::proofs::Forest::laws, crate::proofs::Grown::grows), unfolding(crate::specs::Stored::forest, crate::specs::Counts::AreCounted))]

ghost use Rattle.std.specs.Prelude.{◌≡◌, ℕ, ◌+◌, ◌<◌, ◌≤◌, [], ◌∷◌, ◌++◌, length, min, drop, nat_eq, slice_get, option_map, true, false, OnOk, OnErr, IfOk, IfSome, IsErrOf, IsOkUnless};
ghost use Rattle.cxx_tree.specs.Measure as spec;
ghost use Rattle.cxx_tree.specs.Counts.{Row, AreExact};
ghost use Rattle.cxx_tree.specs.Grows.{Grows, Makes};
ghost use Rattle.cxx_tree.specs.Kept.{SameNodes, IsNode, taken};
ghost use Rattle.cxx_tree.specs.declared.arena.Stop.TheVariants as Stop;
ghost use Rattle.std.specs.List.{AllByRecursion};
ghost use Rattle.cxx_tree.specs.Stored.{Store, IsWithin, forest, size, stands, saved_trees, tree_of, tree_at, trees_at, trees_in, IsBelow, IsListBelow, IsText, IsRange, text_at, list_at, parts_at};

use crate::counts::Measure;
use crate::measuring::of_node;
use crate::node::{List, Node, NodeText, Part, Parts, Plain, Range};
use std::alloc::{AllocError, Global};
use std::marker::Model;

// The greatest limit of an arena: all that is below it is a `u32`.
const MAX_LIMIT: usize = 0xffff_ffff;

/// Why there is no node.
#[derive(Clone, Copy, Drop)]
pub enum Stop {
    /// An allocation failed, or the limit of the arena is reached.
    Memory,
    /// Nothing is read within the limits of a tree.
    Unreadable,
}

impl From<AllocError> for Stop {
    ghost use Rattle.cxx_tree.specs.declared.arena.Stop.TheVariants.{Memory};

    ghost from_gives = { λ _ e. e ≡ Memory };

    fn from(_error: AllocError) -> Self {
        Stop::Memory
    }
}

// A node, and its counts.
#[derive(Clone, Copy)]
pub struct Entry {
    node: Node,
    counts: Measure,
}

/// Nodes, each after its children. Each stands for a tree within the limits. `clear` limits how many nodes, items of
/// lists, parts of phrases, bytes of texts, saved nodes and collected nodes there may be, each.
///
/// The nodes of a list are collected on a stack. A reader of a list takes `pending_len` as `from`, adds the nodes, and
/// passes `from` to the call that makes a node of them, which cuts them off.
#[derive(Drop)]
pub struct Arena {
    entries: Vec<Entry>,
    lists: Vec<u32>,
    parts: Vec<Part>,
    texts: growing_text::Text,
    // The substitution candidates.
    saved: Vec<u32>,
    // The nodes of lists that aren't complete.
    pending: Vec<u32>,
    // The most nodes, items of lists, parts of phrases, bytes of texts, saved and pending nodes, each.
    limit: usize,
    // Whether a call has failed because of the limit.
    is_over: bool,
}

impl Model for Arena {
    ghost use Rattle.cxx_tree.specs.Stored.{Store};

    ghost Value = { Store };

    ghost use Rattle.cxx_tree.specs.View.{store_of, IsConsistent};

    ghost view = { store_of };

    ghost invariant = { IsConsistent };
}

impl Arena {
    /// Returns no nodes. The limit is the greatest one. Allocates nothing.
    pub fn new(alloc: Global) -> Self
        ensures empty { forest result ≡ [] }
        ensures size { size result ≡ 0 }
        ensures limit { result.limit ≡ 4294967295 }
        ensures held { (result.held.lists ≡ []) × (result.held.parts ≡ []) × (result.held.texts ≡ []) }
        ensures lists { (result.saved ≡ []) × (result.pending ≡ []) }
    {
        Arena {
            entries: Vec::new(alloc),
            lists: Vec::new(alloc),
            parts: Vec::new(alloc),
            texts: growing_text::Text::new(alloc),
            saved: Vec::new(alloc),
            pending: Vec::new(alloc),
            limit: MAX_LIMIT,
            is_over: false,
        }
    }

    /// Drops all nodes, and keeps the memory. From now on there may be so many nodes, items of lists, parts of phrases,
    /// bytes of texts, saved nodes and collected nodes, each, at most 4,294,967,295. Past that, a call returns the
    /// error of a failed allocation.
    pub fn clear(&mut self, limit: usize)
        ensures empty { forest self.new ≡ [] }
        ensures size { size self.new ≡ 0 }
        ensures limit { self.new.limit ≡ min limit 4294967295 }
        ensures held { (self.new.held.lists ≡ []) × (self.new.held.parts ≡ []) × (self.new.held.texts ≡ []) }
        ensures lists { (self.new.saved ≡ []) × (self.new.pending ≡ []) }
    {
        self.entries.clear();
        self.lists.clear();
        self.parts.clear();
        self.texts.clear();
        self.saved.clear();
        self.pending.clear();
        self.limit = limit.min(MAX_LIMIT);
        self.is_over = false;
    }

    /// Returns how many nodes there are.
    pub fn len(&self) -> usize
        ensures value { result ≡ size self.now }
    {
        self.entries.len()
    }

    /// Returns the most nodes, items of lists, parts of phrases, bytes of texts, saved nodes and collected nodes that
    /// there may be, each.
    pub fn limit(&self) -> usize
        ensures value { result ≡ self.now.limit }
        ensures within { IsWithin self.now.limit self.now }
    {
        self.limit
    }

    /// Returns whether a call has failed because of the limit since the nodes were dropped.
    pub fn is_over(&self) -> bool {
        self.is_over
    }

    /// Returns a node.
    #[inline(always)]
    pub fn node(&self, i: u32) -> &Node
        requires within { i < size self.now }
        ensures tree { tree_at (forest self.now) i ≡ tree_of self.now.held (forest self.now) result.now }
        ensures below { IsBelow self.now.held i result.now }
        ensures fits { (spec.measure (tree_at (forest self.now) i)).fits ≡ true }
    {
        &self.entries[i as usize].node
    }

    /// Returns the bytes of a text.
    #[inline(always)]
    pub fn bytes(&self, text: NodeText) -> &[u8]
        requires within { IsText self.now.held text }
        ensures value { result.now ≡ text_at self.now.held text }
    {
        match text {
            NodeText::Fixed(bytes) => bytes,
            NodeText::Stored(r) => self.texts.part(r.from as usize, r.to as usize),
        }
    }

    /// Returns the nodes of a list.
    #[inline(always)]
    pub fn items(&self, list: List) -> &[u32]
        requires within { IsRange (length self.now.held.lists) list.range }
        ensures value { result.now ≡ list_at self.now.held list }
    {
        &self.lists[list.range.from as usize..list.range.to as usize]
    }

    /// Returns the node of a list at an index.
    pub fn item(&self, list: List, k: usize) -> u32
        requires list { IsListBelow self.now.held (size self.now) list }
        requires within { k < length (list_at self.now.held list) }
        ensures value { drop k (list_at self.now.held list) ≡ result ∷ drop (k + 1) (list_at self.now.held list) }
        ensures node { IsNode self.now result }
    {
        self.items(list)[k]
    }

    /// Returns the parts of a phrase.
    #[inline(always)]
    pub fn parts_of(&self, parts: Parts) -> &[Part]
        requires within { IsRange (length self.now.held.parts) parts.range }
        ensures value { result.now ≡ parts_at self.now.held parts }
    {
        &self.parts[parts.range.from as usize..parts.range.to as usize]
    }

    /// Returns the counts of a node.
    #[inline(always)]
    pub fn measure(&self, i: u32) -> Measure
        requires within { i < size self.now }
        ensures counts { Row result (spec.measure (tree_at (forest self.now) i)) }
        ensures exact { AreExact (spec.measure (tree_at (forest self.now) i)) }
    {
        self.entries[i as usize].counts
    }

    /// Returns the number of elements of the first pack in the tree of a node, outside of expansions.
    #[tactic(auto, unfolding(crate::specs::Counts::Row))]
    pub fn elements(&self, i: u32) -> Option<u32>
        requires within { i < size self.now }
        ensures value { result ≡ (spec.measure (tree_at (forest self.now) i)).elements }
    {
        self.measure(i).elements
    }

    /// Returns whether no template parameter is in the tree of a node.
    #[tactic(auto, unfolding(crate::specs::Counts::Row))]
    pub fn is_closed(&self, i: u32) -> bool
        requires within { i < size self.now }
        ensures value { result ≡ nat_eq (spec.measure (tree_at (forest self.now) i)).params 0 }
    {
        self.measure(i).params == 0
    }

    /// Appends a node, whose children stand here, and returns its index.
    #[inline(always)]
    pub fn push(&mut self, node: Node) -> Result<u32, Stop>
        requires below { IsBelow self.old.held (size self.old) node }
        ensures index { IfOk result (λ i. i ≡ size self.old) }
        ensures size { OnOk result (size self.new ≡ size self.old + 1) }
        ensures forest { OnOk result (forest self.new ≡ forest self.old ++ tree_of self.old.held (forest self.old)
            node ∷ []) }
        ensures fits { OnOk result ((spec.measure (tree_of self.old.held (forest self.old) node)).fits ≡ true) }
        ensures limit { IsErrOf result Stop.Unreadable →
            (spec.measure (tree_of self.old.held (forest self.old) node)).fits ≡ false }
        ensures held { self.new.held ≡ self.old.held }
        ensures makes { Makes result self.old self.new (tree_of self.old.held (forest self.old) node) }
        ensures err { OnErr result (self.new ≡ self.old) }
    {
        let counts = match of_node(self, node) {
            Some(counts) => counts,
            None => return Err(Stop::Unreadable),
        };
        self.push_counted(node, counts)
    }

    // Appends a node with its counts, and returns its index.
    #[inline(always)]
    fn push_counted(&mut self, node: Node, counts: Measure) -> Result<u32, Stop>
        requires below { IsBelow self.old.held (size self.old) node }
        requires counts { Row counts (spec.measure (tree_of self.old.held (forest self.old) node)) }
        requires exact { AreExact (spec.measure (tree_of self.old.held (forest self.old) node)) }
        ensures index { IfOk result (λ i. i ≡ size self.old) }
        ensures size { OnOk result (size self.new ≡ size self.old + 1) }
        ensures forest { OnOk result (forest self.new ≡ forest self.old ++ tree_of self.old.held (forest self.old)
            node ∷ []) }
        ensures held { self.new.held ≡ self.old.held }
        ensures makes { Makes result self.old self.new (tree_of self.old.held (forest self.old) node) }
        ensures memory { IsOkUnless result Stop.Memory }
        ensures err { OnErr result (self.new ≡ self.old) }
    {
        let index = self.entries.len();
        if index >= self.limit {
            self.is_over = true;
            return Err(Stop::Memory);
        }
        match self.entries.push(Entry { node, counts }) {
            Ok(()) => {}
            Err(_) => return Err(Stop::Memory),
        }
        Ok(index as u32)
    }

    /// Returns how many bytes the texts have.
    #[inline(always)]
    pub fn texts_len(&self) -> usize
        ensures value { result ≡ length self.now.held.texts }
        ensures within { result ≤ self.now.limit }
    {
        self.texts.len()
    }

    /// Appends bytes to the texts.
    #[inline(always)]
    pub fn add_text(&mut self, bytes: &[u8]) -> Result<(), AllocError>
        ensures texts { OnOk result (self.new.held.texts ≡ self.old.held.texts ++ bytes.now) }
        ensures nodes { self.new.nodes ≡ self.old.nodes }
        ensures forest { forest self.new ≡ forest self.old }
        ensures grows { Grows self.old self.new }
        ensures lists { self.new.held.lists ≡ self.old.held.lists }
        ensures parts { self.new.held.parts ≡ self.old.held.parts }
        ensures err { OnErr result (self.new ≡ self.old) }
    {
        let limit = self.limit;
        range_behind(self.texts.len(), bytes.len(), limit, &mut self.is_over)?;
        self.texts.add_short(bytes)?;
        Ok(())
    }

    /// Returns a text of the bytes from an index on.
    #[inline(always)]
    pub fn text_from(&self, from: usize) -> NodeText
        requires within { from ≤ length self.now.held.texts }
        ensures text { text_at self.now.held result ≡ drop from self.now.held.texts }
        ensures within { IsText self.now.held result }
    {
        let to = self.texts.len();
        NodeText::Stored(Range {
            from: from as u32,
            to: to as u32,
        })
    }

    /// Copies a text.
    #[inline(always)]
    pub fn text(&mut self, bytes: &[u8]) -> Result<NodeText, AllocError>
        ensures text { IfOk result (λ t. text_at self.new.held t ≡ bytes.now) }
        ensures within { IfOk result (λ t. IsText self.new.held t) }
        ensures nodes { self.new.nodes ≡ self.old.nodes }
        ensures forest { forest self.new ≡ forest self.old }
        ensures grows { Grows self.old self.new }
        ensures memory { length self.new.held.texts ≤ length self.old.held.texts + length bytes.now }
        ensures lists { self.new.held.lists ≡ self.old.held.lists }
        ensures parts { self.new.held.parts ≡ self.old.held.parts }
        ensures err { OnErr result (self.new ≡ self.old) }
    {
        let from = self.texts_len();
        self.add_text(bytes)?;
        Ok(self.text_from(from))
    }

    /// Copies a list of nodes.
    pub fn list(&mut self, items: &[u32]) -> Result<List, AllocError>
        ensures list { IfOk result (λ l. list_at self.new.held l ≡ items.now) }
        ensures within { IfOk result (λ l. IsRange (length self.new.held.lists) l.range) }
        ensures nodes { self.new.nodes ≡ self.old.nodes }
        ensures forest { forest self.new ≡ forest self.old }
        ensures grows { Grows self.old self.new }
        ensures memory { length self.new.held.lists ≤ length self.old.held.lists + length items.now }
        ensures texts { self.new.held.texts ≡ self.old.held.texts }
        ensures parts { self.new.held.parts ≡ self.old.held.parts }
        ensures err { OnErr result (self.new ≡ self.old) }
    {
        let limit = self.limit;
        let range = range_behind(self.lists.len(), items.len(), limit, &mut self.is_over)?;
        self.lists.extend_from_slice(items)?;
        Ok(List { range })
    }

    /// Copies parts of a phrase.
    pub fn parts(&mut self, parts: &[Part]) -> Result<Parts, AllocError>
        ensures list { IfOk result (λ ps. parts_at self.new.held ps ≡ parts.now) }
        ensures within { IfOk result (λ ps. IsRange (length self.new.held.parts) ps.range) }
        ensures nodes { self.new.nodes ≡ self.old.nodes }
        ensures forest { forest self.new ≡ forest self.old }
        ensures grows { Grows self.old self.new }
        ensures memory { length self.new.held.parts ≤ length self.old.held.parts + length parts.now }
        ensures texts { self.new.held.texts ≡ self.old.held.texts }
        ensures lists { self.new.held.lists ≡ self.old.held.lists }
        ensures err { OnErr result (self.new ≡ self.old) }
    {
        let limit = self.limit;
        let range = range_behind(self.parts.len(), parts.len(), limit, &mut self.is_over)?;
        self.parts.extend_from_slice(parts)?;
        Ok(Parts { range })
    }

    /// Saves a node as a substitution candidate.
    pub fn save(&mut self, i: u32) -> Result<(), Stop>
        requires node { IsNode self.old i }
        ensures saved { OnOk result (saved_trees self.new ≡ saved_trees self.old ++ stands self.old i ∷ []) }
        ensures same { SameNodes self.old self.new }
        ensures forest { forest self.new ≡ forest self.old }
        ensures pending { self.new.pending ≡ self.old.pending }
        ensures memory { IsOkUnless result Stop.Memory }
    {
        if self.saved.len() >= self.limit {
            self.is_over = true;
            return Err(Stop::Memory);
        }
        match self.saved.push(i) {
            Ok(()) => {}
            Err(_) => return Err(Stop::Memory),
        }
        Ok(())
    }

    /// Returns the saved node of an index, or `None` if there is none.
    #[tactic(auto, unfolding(crate::specs::Stored::saved_trees, crate::specs::Stored::stands))]
    pub fn saved(&self, k: usize) -> Option<u32>
        ensures value { option_map (stands self.now) result ≡ slice_get (saved_trees self.now) k }
        ensures node { IfSome result (IsNode self.now) }
    {
        if k >= self.saved.len() {
            return None;
        }
        Some(self.saved[k])
    }

    /// Returns how many nodes are collected.
    #[inline(always)]
    pub fn pending_len(&self) -> usize
        ensures value { result ≡ length self.now.pending }
    {
        self.pending.len()
    }

    /// Returns the nodes that are collected, from an index on.
    #[inline(always)]
    pub fn pending(&self, from: usize) -> &[u32]
        requires within { from ≤ length self.now.pending }
        ensures value { result.now ≡ drop from self.now.pending }
        ensures nodes { AllByRecursion (IsNode self.now) result.now }
    {
        &self.pending[from..]
    }

    /// Collects a node.
    pub fn add(&mut self, i: u32) -> Result<(), Stop>
        requires node { IsNode self.old i }
        ensures pending { OnOk result (self.new.pending ≡ self.old.pending ++ i ∷ []) }
        ensures same { SameNodes self.old self.new }
        ensures forest { forest self.new ≡ forest self.old }
        ensures saved { self.new.saved ≡ self.old.saved }
        ensures memory { IsOkUnless result Stop.Memory }
    {
        if self.pending.len() >= self.limit {
            self.is_over = true;
            return Err(Stop::Memory);
        }
        match self.pending.push(i) {
            Ok(()) => {}
            Err(_) => return Err(Stop::Memory),
        }
        Ok(())
    }

    /// Cuts off the nodes that are collected from an index on.
    pub fn cut(&mut self, from: usize)
        ensures taken { self.new ≡ taken from self.old }
        ensures same { SameNodes self.old self.new }
        ensures forest { forest self.new ≡ forest self.old }
        ensures saved { saved_trees self.new ≡ saved_trees self.old }
    {
        self.pending.truncate(from);
    }

    // Makes a list of the nodes that are collected from an index on. They stay collected.
    fn copied_from(&mut self, from: usize) -> Result<List, AllocError>
        requires within { from ≤ length self.old.pending }
        ensures list { IfOk result (λ l. list_at self.new.held l ≡ drop from self.old.pending) }
        ensures within { IfOk result (λ l. IsRange (length self.new.held.lists) l.range) }
        ensures below { AllByRecursion (λ t. t < size self.old) (drop from self.old.pending) }
        ensures nodes { self.new.nodes ≡ self.old.nodes }
        ensures forest { forest self.new ≡ forest self.old }
        ensures grows { Grows self.old self.new }
        ensures texts { self.new.held.texts ≡ self.old.held.texts }
    {
        let more = self.pending.len() - from;
        let limit = self.limit;
        let range = range_behind(self.lists.len(), more, limit, &mut self.is_over)?;
        self.lists.extend_from_slice(&self.pending[from..])?;
        Ok(List { range })
    }

    /// Makes a list of the nodes that are collected from an index on, and cuts them off.
    pub fn list_from(&mut self, from: usize) -> Result<List, Stop>
        requires within { from ≤ length self.old.pending }
        ensures list { IfOk result (λ l. list_at self.new.held l ≡ drop from self.old.pending) }
        ensures below { IfOk result (λ l. IsListBelow self.new.held (size self.new) l) }
        ensures trees { IfOk result
            (λ l. trees_in self.new.held (forest self.old) l
            ≡ trees_at (forest self.old) (drop from self.old.pending)) }
        ensures grows { Grows (taken from self.old) self.new }
        ensures forest { forest self.new ≡ forest self.old }
        ensures size { size self.new ≡ size self.old }
        ensures texts { self.new.held.texts ≡ self.old.held.texts }
        ensures memory { IsOkUnless result Stop.Memory }
    {
        let list = self.copied_from(from);
        self.pending.truncate(from);
        match list {
            Ok(list) => Ok(list),
            Err(_) => Err(Stop::Memory),
        }
    }
}

// Returns the range of `more` items after `len` others, if there may be so many. Sets `is_over` otherwise.
fn range_behind(
    len: usize,
    more: usize,
    limit: usize,
    is_over: &mut bool,
) -> Result<Range, AllocError>
    requires len { len ≤ limit }
    requires limit { limit ≤ 4294967295 }
    ensures from { IfOk result (λ r. r.from ≡ len) }
    ensures to { IfOk result (λ r. r.to ≡ len + more) }
    ensures within { IfOk result (λ r. r.to ≤ limit) }
    ensures over { OnErr result (is_over.new ≡ true) }
{
    if more > limit - len {
        *is_over = true;
        return Err(AllocError);
    }
    Ok(Range {
        from: len as u32,
        to: (len + more) as u32,
    })
}
