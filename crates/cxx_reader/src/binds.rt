//! What becomes of the template parameters of an encoding.
#![tactic(auto, using(crate::proofs::Rules::productions), unfolding(cxx_tree::specs::Grows::Makes, cxx_tree::specs::Stored::stands, cxx_tree::specs::Stored::saved_trees, cxx_grammar::specs::Binds::parse_closed, cxx_grammar::specs::Binds::bind_encoding, cxx_grammar::specs::Binds::bind_declared, cxx_grammar::specs::Binds::bind_constraint, crate::specs::Outcome::named_at, crate::specs::Outcome::list_trees, cxx_tree::specs::Counts::Row))]

ghost use Rattle.std.specs.Prelude.{◌≡◌, ℕ, ◌+◌, ◌*◌, ◌<◌, ◌≤◌, [], length, map, drop, take, OnOk, IfSome, option_map, Option, Some, true};
ghost use Rattle.cxx_tree.specs.Kept.{KeepsNodes, IsNode};
ghost use Rattle.cxx_tree.specs.Measure.{measure, measure_each};
ghost use Rattle.cxx_tree.specs.Stored.{forest, size, trees_in, trees_from_list, IsListBelow, stands};
ghost use Rattle.cxx_grammar.specs.Bases as bases;
ghost use Rattle.cxx_grammar.specs.Binds as spec;
ghost use Rattle.cxx_reader.specs.Unbound.{IsUnbound};
ghost use Rattle.cxx_reader.specs.Outcome.{state, Keeps, KeepsFront, Gives, GivesFrom, GivesUnit, IsNamed, named_at, trees_behind, list_trees};

use crate::bases::{args_of, declared_name};
use crate::reader::{LearnedName, Reader};
use cxx_tree::bind::{Binding, Others, bind};
use cxx_tree::{List, Stop};

// The most nodes of a symbol that may be replaced.
const MAX_REPLACED: usize = 65_536;

impl<'a> Reader<'a> {
    // Counts the nodes of a tree that are or contain a template parameter.
    fn count_replaced(&mut self, i: u32) -> Result<(), Stop>
        requires node { IsNode self.old.arena i }
        ensures reads { GivesUnit result self.new (spec.count_replaced (stands self.old.arena i) (state self.old)) }
        ensures arena { self.new.arena ≡ self.old.arena }
        ensures rest { self.new.rest.now ≡ self.old.rest.now }
    {
        let params = self.arena.measure(i).params as usize;
        if self.replaced.saturating_add(params) > MAX_REPLACED {
            return Err(Stop::Unreadable);
        }
        self.replaced += params;
        Ok(())
    }

    // Binds a node: the nodes from `from` on of the list that is read stand for the template parameters of a level.
    fn bind_at(&mut self, level: u64, from: usize, others: Others, i: u32) -> Result<u32, Stop>
        requires node { IsNode self.old.arena i }
        requires within { from ≤ length self.old.arena.pending }
        ensures reads { Gives result self.new (spec.bind_by (record {
          level = level;
          names = trees_behind from self.old.arena;
          others = others;
        }) (stands self.old.arena i) (state self.old)) }
        ensures keeps { OnOk result (Keeps self.old self.new) }
        ensures rest { self.new.rest.now ≡ self.old.rest.now }
    {
        // Its clauses say that these are nodes.
        self.arena.pending(from);
        let binding = Binding {
            level,
            from,
            others,
        };
        bind(&mut self.arena, self.alloc, &binding, i)
    }

    // Binds a node: the nodes from `from` on of the list that is read stand for the template parameters of its
    // encoding.
    fn bind_one(&mut self, from: usize, i: u32) -> Result<u32, Stop>
        requires node { IsNode self.old.arena i }
        requires within { from ≤ length self.old.arena.pending }
        ensures reads { Gives result self.new (spec.bind_tree (trees_behind from self.old.arena)
            (stands self.old.arena i) (state self.old)) }
        ensures keeps { OnOk result (Keeps self.old self.new) }
        ensures rest { self.new.rest.now ≡ self.old.rest.now }
    {
        self.bind_at(0, from, Others::Keep, i)
    }

    // Binds an argument.
    fn bind_arg(&mut self, is_inherited: bool, from: usize, i: u32) -> Result<u32, Stop>
        requires node { IsNode self.old.arena i }
        requires within { from ≤ length self.old.arena.pending }
        ensures reads { Gives result self.new (spec.bind_arg is_inherited (trees_behind from self.old.arena)
            (stands self.old.arena i) (state self.old)) }
        ensures keeps { OnOk result (Keeps self.old self.new) }
        ensures rest { self.new.rest.now ≡ self.old.rest.now }
    {
        if is_inherited {
            tri!(self.count_replaced(i));
        }
        self.bind_one(from, i)
    }

    // Binds arguments, each with those before it in the place of its template parameters. Appends them to the list
    // that is read.
    fn bind_args(&mut self, is_inherited: bool, args: List) -> Result<(), Stop>
        requires args { IsListBelow self.old.arena.held (size self.old.arena) args }
        ensures reads { GivesFrom result (length self.old.arena.pending) self.new (spec.bind_args is_inherited []
            (list_trees self.old.arena args) (state self.old)) }
        ensures keeps { OnOk result (KeepsFront (length self.old.arena.pending) self.old self.new) }
        ensures rest { self.new.rest.now ≡ self.old.rest.now }
    {
        let from = self.arena.pending_len();
        let len = self.arena.items(args).len();
        for k in 0..len {
            let arg = self.arena.item(args, k);
            let bound = tri!(self.bind_arg(is_inherited, from, arg));
            tri!(self.arena.add(bound));
        }
        Ok(())
    }

    // Returns the arguments of the name after `CI`, unless the name ends with its own.
    fn inherited_args(&self, name: LearnedName) -> Option<List>
        requires named { IsNamed self.now.arena name }
        ensures value { option_map (list_trees self.now.arena) result
            ≡ spec.inherited_args (named_at self.now.arena name).info }
        ensures below { IfSome result (IsListBelow self.now.arena.held (size self.now.arena)) }
    {
        if name.info.ends_with_args {
            return None;
        }
        match name.info.inherited {
            Some(from) => args_of(&self.arena, from),
            None => None,
        }
    }

    /// Returns whether the template parameters of an encoding with this name refer to arguments.
    pub fn has_args(&self, name: LearnedName) -> bool
        requires named { IsNamed self.now.arena name }
        ensures value { result ≡ spec.has_args (named_at self.now.arena name) }
    {
        self.inherited_args(name).is_some() || args_of(&self.arena, name.node).is_some()
    }

    // Appends the names of declarations to the list that is read.
    fn add_names(&mut self, declarations: List) -> Result<(), Stop>
        requires declarations { IsListBelow self.old.arena.held (size self.old.arena) declarations }
        ensures reads { GivesFrom result (length self.old.arena.pending) self.new
            (Some (spec.names_of (list_trees self.old.arena declarations), state self.old)) }
        ensures keeps { OnOk result (KeepsFront (length self.old.arena.pending) self.old self.new) }
        ensures rest { self.new.rest.now ≡ self.old.rest.now }
    {
        let len = self.arena.items(declarations).len();
        for k in 0..len {
            let declaration = self.arena.item(declarations, k);
            let name = declared_name(&self.arena, declaration);
            tri!(self.arena.add(name));
        }
        Ok(())
    }

    // Binds a node: the nodes from `from` on of the list that is read stand for the template parameters of a level.
    // They leave the list.
    fn bind_names(&mut self, level: u64, from: usize, others: Others, i: u32) -> Result<u32, Stop>
        requires node { IsNode self.old.arena i }
        requires within { from ≤ length self.old.arena.pending }
        ensures reads { Gives result self.new (spec.bind_by (record {
          level = level;
          names = trees_behind from self.old.arena;
          others = others;
        }) (stands self.old.arena i) (state self.old)) }
        ensures grows { OnOk result (KeepsNodes self.old.arena self.new.arena) }
        ensures pending { OnOk result (self.new.arena.pending ≡ take from self.old.arena.pending) }
        ensures rest { self.new.rest.now ≡ self.old.rest.now }
    {
        let bound = self.bind_at(level, from, others, i);
        self.arena.cut(from);
        bound
    }

    /// Binds the template parameters of a binder with these declarations, whose names they become.
    pub fn bind_declared(
        &mut self,
        level: u64,
        others: Others,
        declarations: List,
        i: u32,
    ) -> Result<u32, Stop>
        requires declarations { IsListBelow self.old.arena.held (size self.old.arena) declarations }
        requires node { IsNode self.old.arena i }
        ensures reads { Gives result self.new (spec.bind_declared level others (list_trees self.old.arena declarations)
            (stands self.old.arena i) (state self.old)) }
        ensures keeps { OnOk result (Keeps self.old self.new) }
        ensures rest { self.new.rest.now ≡ self.old.rest.now }
    {
        tri!(self.count_replaced(i));
        let from = self.arena.pending_len();
        tri!(self.add_names(declarations));
        self.bind_names(level, from, others, i)
    }

    /// Makes the template parameters of a constraint names, as they are mangled.
    pub fn bind_constraint(&mut self, i: u32) -> Result<u32, Stop>
        requires node { IsNode self.old.arena i }
        ensures reads { Gives result self.new (spec.bind_constraint (stands self.old.arena i) (state self.old)) }
        ensures keeps { OnOk result (Keeps self.old self.new) }
        ensures rest { self.new.rest.now ≡ self.old.rest.now }
    {
        tri!(self.count_replaced(i));
        let binding = Binding {
            level: 0,
            from: self.arena.pending_len(),
            others: Others::Written,
        };
        bind(&mut self.arena, self.alloc, &binding, i)
    }

    // Binds the arguments of an encoding, if its name has some.
    fn bind_arguments(&mut self, name: LearnedName) -> Result<(), Stop>
        requires named { IsNamed self.old.arena name }
        ensures reads { GivesFrom result (length self.old.arena.pending) self.new (spec.bind_first
            (spec.inherited_args (named_at self.old.arena name).info) (bases.args_of (stands self.old.arena name.node))
            (state self.old)) }
        ensures keeps { OnOk result (KeepsFront (length self.old.arena.pending) self.old self.new) }
        ensures rest { self.new.rest.now ≡ self.old.rest.now }
    {
        if let Some(args) = self.inherited_args(name) {
            return self.bind_args(true, args);
        }
        match args_of(&self.arena, name.node) {
            Some(args) => self.bind_args(false, args),
            None => Ok(()),
        }
    }

    /// Refuses a node whose tree holds a template parameter.
    pub fn closed(&self, i: u32) -> Result<u32, Stop>
        requires node { IsNode self.now.arena i }
        ensures reads { Gives result self.now (spec.parse_closed (stands self.now.arena i) (state self.now)) }
    {
        if !self.arena.is_closed(i) {
            return Err(Stop::Unreadable);
        }
        Ok(i)
    }

    // Binds the tree of an encoding to the nodes from `from` on, which leave the list that is read.
    fn bind_all(&mut self, from: usize, i: u32) -> Result<u32, Stop>
        requires node { IsNode self.old.arena i }
        requires within { from ≤ length self.old.arena.pending }
        ensures reads { Gives result self.new (spec.bind_all (trees_behind from self.old.arena)
            (stands self.old.arena i) (state self.old)) }
        ensures grows { OnOk result (KeepsNodes self.old.arena self.new.arena) }
        ensures pending { OnOk result (self.new.arena.pending ≡ take from self.old.arena.pending) }
        ensures rest { self.new.rest.now ≡ self.old.rest.now }
    {
        let bound = self.bind_one(from, i);
        self.arena.cut(from);
        self.closed(tri!(bound))
    }

    // Returns whether the tree of an encoding stays as it is, since neither it nor its name holds a template parameter.
    #[tactic(auto, using(crate::proofs::Unbound::unbound), unfolding(cxx_tree::specs::Stored::stands, crate::specs::Outcome::named_at, cxx_tree::specs::Counts::Row))]
    fn is_unbound(&self, name: LearnedName, i: u32) -> bool
        requires named { IsNamed self.now.arena name }
        requires node { IsNode self.now.arena i }
        ensures stays { result ≡ true → IsUnbound (named_at self.now.arena name) (stands self.now.arena i) }
    {
        if name.info.inherited.is_some() {
            return false;
        }
        let named = self.arena.measure(name.node);
        let tree = self.arena.measure(i);
        named.params == 0 && tree.params == 0
    }

    // Binds the arguments of the name of an encoding, and then its tree, whose template parameters are counted.
    fn bind_counted(&mut self, name: LearnedName, i: u32) -> Result<u32, Stop>
        requires named { IsNamed self.old.arena name }
        requires node { IsNode self.old.arena i }
        ensures reads { Gives result self.new (spec.bind_counted (named_at self.old.arena name) (stands self.old.arena i)
            (state self.old)) }
        ensures keeps { OnOk result (Keeps self.old self.new) }
        ensures rest { self.new.rest.now ≡ self.old.rest.now }
    {
        let from = self.arena.pending_len();
        match self.bind_arguments(name) {
            Ok(()) => self.bind_all(from, i),
            Err(stop) => {
                self.arena.cut(from);
                Err(stop)
            }
        }
    }

    /// Puts the arguments of the name of an encoding in the place of the template parameters of its tree.
    pub fn bind(&mut self, name: LearnedName, i: u32) -> Result<u32, Stop>
        requires named { IsNamed self.old.arena name }
        requires node { IsNode self.old.arena i }
        ensures reads { Gives result self.new (spec.bind_encoding (named_at self.old.arena name)
            (stands self.old.arena i) (state self.old)) }
        ensures keeps { OnOk result (Keeps self.old self.new) }
        ensures rest { self.new.rest.now ≡ self.old.rest.now }
    {
        tri!(self.count_replaced(i));
        if self.is_unbound(name, i) {
            return Ok(i);
        }
        self.bind_counted(name, i)
    }
}
